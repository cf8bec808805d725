// The words that a place of a row allows.
use stepper_words::place::{LAST_FAMILY, Place};
use tables::{argument_form, family, node_tag, operator, parameter_shape, source};
use words::kind;

#[derive(Drop)]
pub enum Allowed {
    Any,
    UpTo(u64),
    Either(u64, u64),
    Alone(u64),
    Unused,
}

impl Allowed {
    pub fn has(self, word: u64) -> bool {
        match self {
            Allowed::Any => true,
            Allowed::UpTo(last) => word <= last,
            Allowed::Either(one, other) => word == one || word == other,
            Allowed::Alone(only) => word == only,
            Allowed::Unused => word == 0,
        }
    }
}

// The last operator of a family that has several.
fn last_operator(family: u64) -> u64 {
    match family {
        family::ARITHMETIC => operator::MULTIPLY,
        family::COMPARISON => operator::LESS_THAN,
        family::BINARY_LOGIC => operator::ASHR,
        family::UNARY => operator::NOT,
        family::FRAME => operator::SHIFT_PHASE,
        _ => operator::ANY_OTHER,
    }
}

fn source_forms(family: u64) -> Allowed {
    match family {
        family::ARITHMETIC | family::COMPARISON | family::MOVE | family::STORE => {
            Allowed::UpTo(source::REFERENCE)
        }
        family::BINARY_LOGIC => Allowed::Either(source::INTEGER_LITERAL, source::REFERENCE),
        family::LOAD | family::CONVERT => Allowed::Alone(source::REFERENCE),
        _ => Allowed::Alone(source::NONE),
    }
}

// `family` is an instruction's; no other table asks for it.
pub fn words_at(place: Place, family: u64) -> Allowed {
    match place {
        Place::Name | Place::Label | Place::Whole | Place::Real => Allowed::Any,
        Place::Kind => Allowed::UpTo(kind::REAL),
        Place::ReturnKind => Allowed::UpTo(parameter_shape::NO_RETURN),
        Place::Mutability => Allowed::UpTo(1),
        Place::Shape => Allowed::UpTo(parameter_shape::VARIABLE_VECTOR),
        Place::Tag => Allowed::UpTo(node_tag::VARIABLE),
        Place::Form => Allowed::UpTo(argument_form::IMMEDIATE),
        Place::Operation => Allowed::UpTo(LAST_FAMILY),
        Place::Operator => Allowed::UpTo(last_operator(family)),
        Place::SourceForm => source_forms(family),
        Place::Unused => Allowed::Unused,
    }
}
