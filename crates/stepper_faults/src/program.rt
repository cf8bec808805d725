// The six tables of a program.
use stepper_words::heading::Table;

// In the library's order.
pub const TABLES: [Table; 6] = [
    Table::Regions,
    Table::Externs,
    Table::Parameters,
    Table::Nodes,
    Table::Arguments,
    Table::Instructions,
];

#[derive(Clone, Copy)]
pub struct Program<'a> {
    pub regions: &'a [u64],
    pub externs: &'a [u64],
    pub parameters: &'a [u64],
    pub nodes: &'a [u64],
    pub arguments: &'a [u64],
    pub instructions: &'a [u64],
}

impl<'a> Program<'a> {
    pub fn words(self, table: Table) -> &'a [u64] {
        match table {
            Table::Regions => self.regions,
            Table::Externs => self.externs,
            Table::Parameters => self.parameters,
            Table::Nodes => self.nodes,
            Table::Arguments => self.arguments,
            Table::Instructions => self.instructions,
        }
    }

    // How many whole rows a table has.
    pub fn rows(self, table: Table) -> usize {
        self.words(table).len() / table.width()
    }
}
