// Which operands of a row are names of regions, and which have a written index: by the family alone.
#![tactic(auto, unfolding(tables::specs::Names::names_first, tables::specs::Names::indexes_first, tables::specs::Names::names_second, tables::specs::Names::indexes_second, tables::specs::Names::operands_of, tables::specs::Cases::case_of))]

ghost use Rattle.std.specs.Prelude.{◌≡◌};
ghost use Rattle.tables.specs.Names.{names_first, indexes_first, names_second, indexes_second};

use tables::family;

pub fn names_first(family: u64) -> bool
    ensures { result ≡ names_first family }
{
    matches!(
        family,
        family::ARITHMETIC
            | family::COMPARISON
            | family::BINARY_LOGIC
            | family::UNARY
            | family::MOVE
            | family::EXCHANGE
            | family::LOAD
            | family::STORE
            | family::JUMP_WHEN
            | family::JUMP_UNLESS
            | family::CONVERT
    )
}

pub fn indexes_first(family: u64) -> bool
    ensures { result ≡ indexes_first family }
{
    names_first(family) & (family != family::STORE)
}

pub fn names_second(family: u64) -> bool
    ensures { result ≡ names_second family }
{
    matches!(
        family,
        family::COMPARISON | family::EXCHANGE | family::LOAD | family::STORE
    )
}

pub fn indexes_second(family: u64) -> bool
    ensures { result ≡ indexes_second family }
{
    names_second(family) & (family != family::LOAD)
}
