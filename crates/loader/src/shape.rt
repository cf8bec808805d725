// Refusal 1: whole rows, within the limits.
#![tactic(auto, unfolding(crate::specs::Shape::whole_rows, crate::specs::Shape::whole_tables))]

ghost use Rattle.std.specs.Prelude.{◌≡◌, ◌<◌};
ghost use Rattle.tables.specs.Tables.{tables_of};
ghost use Rattle.loader.specs.Shape.{whole_rows, whole_tables};

use tables::rows::{
    ARGUMENT_LIMIT, ARGUMENT_WIDTH, EXTERN_LIMIT, EXTERN_WIDTH, INSTRUCTION_LIMIT,
    INSTRUCTION_WIDTH, NODE_LIMIT, NODE_WIDTH, PARAMETER_LIMIT, PARAMETER_WIDTH, REGION_LIMIT,
    REGION_WIDTH,
};

pub fn whole_rows(table: &[u64], width: usize, limit: usize) -> bool
    requires { 0 < width }
    ensures { result ≡ whole_rows width limit table.now }
{
    (table.len() % width == 0) & (table.len() / width <= limit)
}

pub fn whole_tables(
    regions: &[u64],
    externs: &[u64],
    parameters: &[u64],
    nodes: &[u64],
    arguments: &[u64],
    instructions: &[u64],
) -> bool
    ensures { result ≡ whole_tables (tables_of regions.now externs.now parameters.now nodes.now arguments.now instructions.now) }
{
    whole_rows(regions, REGION_WIDTH, REGION_LIMIT)
        & (whole_rows(externs, EXTERN_WIDTH, EXTERN_LIMIT)
            & (whole_rows(parameters, PARAMETER_WIDTH, PARAMETER_LIMIT)
                & (whole_rows(nodes, NODE_WIDTH, NODE_LIMIT)
                    & (whole_rows(arguments, ARGUMENT_WIDTH, ARGUMENT_LIMIT)
                        & whole_rows(instructions, INSTRUCTION_WIDTH, INSTRUCTION_LIMIT)))))
}
