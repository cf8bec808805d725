// A program's rows as text in the manner of Quil.
use crate::line::Line;
use stepper_words::list::{item, line_of};
use stepper_words::names::NAME_WORDS;
use stepper_words::vocabulary::{MNEMONICS, NODES};
use tables::rows::{ARGUMENT_WIDTH, Argument, Instruction, NODE_WIDTH, Node, argument_at, node_at};
use tables::{argument_form, family, node_tag, source};

pub fn complex(line: Line, real_bits: u64, imaginary_bits: u64) -> Line {
    let real = line.real(real_bits);
    if imaginary_bits == 0 {
        return real;
    }
    real.with(b'+').real(imaginary_bits).with(b'i')
}

// A refused program's count may be any word: no more rows are looked at than the table has.
pub fn at_most(count: u64, rows: usize) -> u64 {
    count.min(rows as u64)
}

pub fn argument(line: Line, source: &[u8], names: &[u64; NAME_WORDS], x: Argument) -> Line {
    match x.form {
        argument_form::IDENTIFIER => line.name(source, names, x.first),
        argument_form::REFERENCE => line.reference(source, names, x.first, x.second),
        _ => complex(line, x.first, x.second),
    }
}

// A family or an operator that there is not is shown by its numbers.
fn mnemonic(line: Line, family: u64, operator: u64) -> Line {
    let word = item(line_of(&MNEMONICS, family), operator);
    if !word.is_empty() {
        return line.text(word).whole();
    }
    line.text(b"family ")
        .number(family)
        .text(b" operator ")
        .number(operator)
        .whole()
}

// So many rows from `first` on, as long as the line fits.
fn rows<F: Fn(Line, usize) -> Line>(line: Line, first: u64, count: u64, with_row: F) -> Line
    requires { F.IsAlwaysCallable with_row }
{
    let mut made = line;
    for i in 0..count {
        if !made.fits() {
            break;
        }
        made = with_row(made, first.wrapping_add(i) as usize);
    }
    made
}

// A program's tables, and the text of its names with their places in it.
#[derive(Clone, Copy)]
pub(crate) struct Program<'a> {
    pub source: &'a [u8],
    pub names: &'a [u64; NAME_WORDS],
    pub nodes: &'a [u64],
    pub arguments: &'a [u64],
    pub instructions: &'a [u64],
}

impl Program<'_> {
    fn name(self, line: Line, n: u64) -> Line {
        line.name(self.source, self.names, n)
    }

    fn reference(self, line: Line, n: u64, index: u64) -> Line {
        line.reference(self.source, self.names, n, index)
    }

    // A STORE's first operand is a whole region.
    fn first(self, line: Line, x: Instruction) -> Line {
        let next = line.with(b' ');
        if x.family == family::STORE {
            return self.name(next, x.first_name).whole();
        }
        self.reference(next, x.first_name, x.first_index).whole()
    }

    // Comparison, exchange, load and store have a second operand; a LOAD's is a whole region.
    fn second(self, line: Line, x: Instruction) -> Line {
        match x.family {
            family::COMPARISON | family::EXCHANGE | family::STORE => self
                .reference(line.with(b' '), x.second_name, x.second_index)
                .whole(),
            family::LOAD => self.name(line.with(b' '), x.second_name).whole(),
            _ => line,
        }
    }

    fn source_operand(self, line: Line, x: Instruction) -> Line {
        match x.source_form {
            source::INTEGER_LITERAL => line.with(b' ').signed(x.source_first).whole(),
            source::REAL_LITERAL => line.with(b' ').real(x.source_first).whole(),
            source::REFERENCE => self
                .reference(line.with(b' '), x.source_first, x.source_second)
                .whole(),
            _ => line,
        }
    }

    fn operands(self, line: Line, x: Instruction) -> Line {
        self.source_operand(self.second(self.first(line, x), x), x)
    }

    // The label of a LABEL or of a jump.
    fn label(self, line: Line, x: Instruction) -> Line {
        self.name(line.text(b" @"), x.second_name).whole()
    }

    // A node: a parent by its tag's name, its children after it.
    fn node(self, line: Line, x: Node) -> Line {
        match x.tag {
            node_tag::ADDRESS => self.reference(line, x.first, x.second),
            node_tag::NUMBER => complex(line, x.first, x.second),
            node_tag::VARIABLE => self.name(line.with(b'%'), x.first),
            tag => line.text(item(&NODES, tag)),
        }
    }

    // A node that the table has.
    fn node_row(self, line: Line, row: usize) -> Line {
        if row < self.nodes.len() / NODE_WIDTH {
            return self.node(line.with(b' '), node_at(self.nodes, row)).whole();
        }
        line
    }

    // An argument that the table has.
    fn argument_row(self, line: Line, row: usize) -> Line {
        if row < self.arguments.len() / ARGUMENT_WIDTH {
            let x = argument_at(self.arguments, row);
            return argument(line.with(b' '), self.source, self.names, x).whole();
        }
        line
    }

    fn expression(self, line: Line, x: Instruction) -> Line {
        let count = at_most(x.first_index, self.nodes.len() / NODE_WIDTH);
        rows(
            line,
            x.first_name,
            count,
            |line, row| self.node_row(line, row),
        )
    }

    fn call(self, line: Line, x: Instruction) -> Line {
        let called = self.name(line.with(b' '), x.first_name).whole();
        let count = at_most(x.second_name, self.arguments.len() / ARGUMENT_WIDTH);
        rows(
            called,
            x.first_index,
            count,
            |line, row| self.argument_row(line, row),
        )
    }

    pub fn row_text(self, line: Line, x: Instruction) -> Line {
        let headed = mnemonic(line, x.family, x.operator);
        match x.family {
            family::FRAME => self.expression(headed, x),
            family::CALL => self.call(headed, x),
            family::OTHER | family::HALT => headed,
            family::JUMP | family::LABEL => self.label(headed, x),
            family::JUMP_WHEN | family::JUMP_UNLESS => self.first(self.label(headed, x), x),
            _ => self.operands(headed, x),
        }
    }
}
