// The rows of the six tables, decoded by value.
ghost use Rattle.std.specs.Prelude.{◌≡◌, ◌<◌};
ghost use Rattle.tables.specs.Rows.{region_rows, extern_rows, parameter_rows, node_rows, argument_rows, instruction_rows, region_at, extern_at, parameter_at, node_at, argument_at, instruction_at};

// Words in a row of each table.
pub const REGION_WIDTH: usize = 3;

pub const EXTERN_WIDTH: usize = 4;

pub const PARAMETER_WIDTH: usize = 5;

pub const NODE_WIDTH: usize = 3;

pub const ARGUMENT_WIDTH: usize = 3;

pub const INSTRUCTION_WIDTH: usize = 9;

// Limits in rows.
pub const REGION_LIMIT: usize = 64;

pub const EXTERN_LIMIT: usize = 32;

pub const PARAMETER_LIMIT: usize = 256;

pub const NODE_LIMIT: usize = 2048;

pub const ARGUMENT_LIMIT: usize = 1024;

pub const INSTRUCTION_LIMIT: usize = 512;

#[derive(Clone, Copy)]
pub struct Region {
    pub name: u64,
    pub kind: u64,
    pub length: u64,
}

#[derive(Drop)]
pub struct Extern {
    pub name: u64,
    pub return_kind: u64,
    pub first_parameter: u64,
    pub parameter_count: u64,
}

#[derive(Drop)]
pub struct Parameter {
    pub name: u64,
    pub mutable: u64,
    pub shape: u64,
    pub kind: u64,
    pub length: u64,
}

#[derive(Drop)]
pub struct Node {
    pub tag: u64,
    pub first: u64,
    pub second: u64,
}

#[derive(Clone, Copy)]
pub struct Argument {
    pub form: u64,
    pub first: u64,
    pub second: u64,
}

// The first and second operand are a name and an index; the source is a literal's bits and 0, or a name and an index.
#[derive(Clone, Copy)]
pub struct Instruction {
    pub family: u64,
    pub operator: u64,
    pub first_name: u64,
    pub first_index: u64,
    pub second_name: u64,
    pub second_index: u64,
    pub source_form: u64,
    pub source_first: u64,
    pub source_second: u64,
}

// A decoder for each table, since its contract names the table's own row; a trait over the six would keep these bodies and add a member to each clause.
pub fn region_at(regions: &[u64], row: usize) -> Region
    requires { row < region_rows regions.now }
    ensures { result ≡ region_at regions.now row }
{
    let at = row * REGION_WIDTH;
    Region {
        name: regions[at],
        kind: regions[at + 1],
        length: regions[at + 2],
    }
}

pub fn extern_at(externs: &[u64], row: usize) -> Extern
    requires { row < extern_rows externs.now }
    ensures { result ≡ extern_at externs.now row }
{
    let at = row * EXTERN_WIDTH;
    Extern {
        name: externs[at],
        return_kind: externs[at + 1],
        first_parameter: externs[at + 2],
        parameter_count: externs[at + 3],
    }
}

pub fn parameter_at(parameters: &[u64], row: usize) -> Parameter
    requires { row < parameter_rows parameters.now }
    ensures { result ≡ parameter_at parameters.now row }
{
    let at = row * PARAMETER_WIDTH;
    Parameter {
        name: parameters[at],
        mutable: parameters[at + 1],
        shape: parameters[at + 2],
        kind: parameters[at + 3],
        length: parameters[at + 4],
    }
}

pub fn node_at(nodes: &[u64], row: usize) -> Node
    requires { row < node_rows nodes.now }
    ensures { result ≡ node_at nodes.now row }
{
    let at = row * NODE_WIDTH;
    Node {
        tag: nodes[at],
        first: nodes[at + 1],
        second: nodes[at + 2],
    }
}

pub fn argument_at(arguments: &[u64], row: usize) -> Argument
    requires { row < argument_rows arguments.now }
    ensures { result ≡ argument_at arguments.now row }
{
    let at = row * ARGUMENT_WIDTH;
    Argument {
        form: arguments[at],
        first: arguments[at + 1],
        second: arguments[at + 2],
    }
}

pub fn instruction_at(instructions: &[u64], row: usize) -> Instruction
    requires { row < instruction_rows instructions.now }
    ensures { result ≡ instruction_at instructions.now row }
{
    let at = row * INSTRUCTION_WIDTH;
    Instruction {
        family: instructions[at],
        operator: instructions[at + 1],
        first_name: instructions[at + 2],
        first_index: instructions[at + 3],
        second_name: instructions[at + 4],
        second_index: instructions[at + 5],
        source_form: instructions[at + 6],
        source_first: instructions[at + 7],
        source_second: instructions[at + 8],
    }
}
