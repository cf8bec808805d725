// What stands at each word of a row, by its table, its column and the words before it. Of a number that the tables do not know, the words after it are unused.
use crate::heading::Table;
use tables::{argument_form, family, node_tag, parameter_shape, source};

// Words of a row as it is read, more than any table's.
pub const ROW_WORDS: usize = 16;

// Past it there is no family.
pub const LAST_FAMILY: u64 = family::CONVERT;

// A label is a name, after `@`. A whole is an integer: a length, an index, a row, a count or an integer literal.
#[derive(Clone, Copy)]
pub enum Place {
    Name,
    Label,
    Kind,
    ReturnKind,
    Mutability,
    Shape,
    Tag,
    Form,
    Operation,
    Operator,
    SourceForm,
    Whole,
    Real,
    Unused,
}

fn region_place(column: usize) -> Place {
    match column {
        0 => Place::Name,
        1 => Place::Kind,
        2 => Place::Whole,
        _ => Place::Unused,
    }
}

fn extern_place(column: usize) -> Place {
    match column {
        0 => Place::Name,
        1 => Place::ReturnKind,
        2 | 3 => Place::Whole,
        _ => Place::Unused,
    }
}

// A vector of fixed length alone has a length.
fn length_place(shape: u64) -> Place {
    match shape {
        parameter_shape::FIXED_VECTOR => Place::Whole,
        _ => Place::Unused,
    }
}

fn parameter_place(shape: u64, column: usize) -> Place {
    match column {
        0 => Place::Name,
        1 => Place::Mutability,
        2 => Place::Shape,
        3 => Place::Kind,
        4 => length_place(shape),
        _ => Place::Unused,
    }
}

// One of two words, the first at column `first`; unused past them.
fn either(column: usize, first: usize, one: Place, other: Place) -> Place {
    match column.checked_sub(first) {
        Some(0) => one,
        Some(1) => other,
        _ => Place::Unused,
    }
}

fn reference_place(column: usize, first: usize) -> Place {
    either(column, first, Place::Name, Place::Whole)
}

fn complex_place(column: usize) -> Place {
    either(column, 1, Place::Real, Place::Real)
}

fn node_place(tag: u64, column: usize) -> Place {
    if column == 0 {
        return Place::Tag;
    }
    match tag {
        node_tag::ADDRESS => reference_place(column, 1),
        node_tag::NUMBER => complex_place(column),
        node_tag::VARIABLE => either(column, 1, Place::Name, Place::Unused),
        _ => Place::Unused,
    }
}

fn argument_place(form: u64, column: usize) -> Place {
    if column == 0 {
        return Place::Form;
    }
    match form {
        argument_form::IDENTIFIER => either(column, 1, Place::Name, Place::Unused),
        argument_form::REFERENCE => reference_place(column, 1),
        argument_form::IMMEDIATE => complex_place(column),
        _ => Place::Unused,
    }
}

// A family of one operator has that word unused.
fn operator_place(family: u64) -> Place {
    match family {
        family::ARITHMETIC
        | family::COMPARISON
        | family::BINARY_LOGIC
        | family::UNARY
        | family::FRAME
        | family::OTHER => Place::Operator,
        _ => Place::Unused,
    }
}

// The first operand's two words: a cell, such as a jump's condition, a STORE's region, a frame's nodes, a CALL's extern and first argument, or nothing.
fn first_place(family: u64, column: usize) -> Place {
    match family {
        family::STORE => either(column, 2, Place::Name, Place::Unused),
        family::FRAME => either(column, 2, Place::Whole, Place::Whole),
        family::OTHER | family::JUMP | family::LABEL | family::HALT => Place::Unused,
        _ => reference_place(column, 2),
    }
}

// The second operand's two words: a cell, a LOAD's region, a CALL's argument count, a label, or nothing.
fn second_place(family: u64, column: usize) -> Place {
    match family {
        family::COMPARISON | family::EXCHANGE | family::STORE => reference_place(column, 4),
        family::LOAD => either(column, 4, Place::Name, Place::Unused),
        family::CALL => either(column, 4, Place::Whole, Place::Unused),
        family::JUMP | family::JUMP_WHEN | family::JUMP_UNLESS | family::LABEL => {
            either(column, 4, Place::Label, Place::Unused)
        }
        _ => Place::Unused,
    }
}

// The source's two words.
fn source_place(form: u64, column: usize) -> Place {
    match form {
        source::INTEGER_LITERAL => either(column, 7, Place::Whole, Place::Unused),
        source::REAL_LITERAL => either(column, 7, Place::Real, Place::Unused),
        source::REFERENCE => reference_place(column, 7),
        _ => Place::Unused,
    }
}

fn instruction_place(family: u64, form: u64, column: usize) -> Place {
    if column == 0 {
        return Place::Operation;
    }
    if family > LAST_FAMILY {
        return Place::Unused;
    }
    match column {
        1 => operator_place(family),
        2 | 3 => first_place(family, column),
        4 | 5 => second_place(family, column),
        6 => Place::SourceForm,
        _ => source_place(form, column),
    }
}

// `row` holds the words before `column`; those from it on are not looked at.
pub fn place_of(table: Table, row: [u64; ROW_WORDS], column: usize) -> Place {
    match table {
        Table::Regions => region_place(column),
        Table::Externs => extern_place(column),
        Table::Parameters => parameter_place(row[2], column),
        Table::Nodes => node_place(row[0], column),
        Table::Arguments => argument_place(row[0], column),
        Table::Instructions => instruction_place(row[0], row[6], column),
    }
}
