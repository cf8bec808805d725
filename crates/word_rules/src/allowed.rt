// Refusal 2, of every table but the instructions: the words that each row allows.
#![tactic(auto, unfolding(crate::specs::Allowed::region_allowed, crate::specs::Allowed::extern_allowed, crate::specs::Allowed::parameter_allowed, crate::specs::Allowed::node_allowed, crate::specs::Allowed::argument_allowed, tables::specs::Cases::case_of))]

ghost use Rattle.std.specs.Prelude.{◌≡◌, ◌-◌, ◌≤◌};
ghost use Rattle.tables.specs.Rows.{node_rows};
ghost use Rattle.word_rules.specs.Allowed.{region_allowed, extern_allowed, parameter_allowed, node_allowed, argument_allowed, regions_allowed, externs_allowed, parameters_allowed, nodes_allowed_from, arguments_allowed};

use tables::parameter_shape::{FIXED_VECTOR, NO_RETURN, VARIABLE_VECTOR};
use tables::rows::{
    ARGUMENT_WIDTH, Argument, EXTERN_WIDTH, Extern, Node, PARAMETER_WIDTH, Parameter, REGION_WIDTH,
    Region, argument_at, extern_at, node_at, parameter_at, region_at,
};
use tables::tree::range_inside;
use tables::{argument_form, node_tag};
use words::kind::REAL;

fn region_allowed(x: Region) -> bool
    ensures { result ≡ region_allowed x }
{
    x.kind <= REAL
}

// `parameters` is the number of parameter rows.
fn extern_allowed(x: Extern, parameters: usize) -> bool
    ensures { result ≡ extern_allowed parameters x }
{
    (x.return_kind <= NO_RETURN) & range_inside(x.first_parameter, x.parameter_count, parameters)
}

// By branches, for speed.
fn parameter_allowed(x: Parameter) -> bool
    ensures { result ≡ parameter_allowed x }
{
    if 1 < x.mutable {
        return false;
    }
    if REAL < x.kind {
        return false;
    }
    if x.shape == FIXED_VECTOR {
        return true;
    }
    (x.shape <= VARIABLE_VECTOR) & (x.length == 0)
}

// A node without words, as most are, is passed first, for speed.
pub fn node_allowed(x: Node) -> bool
    ensures { result ≡ node_allowed x }
{
    if (x.first == 0) & (x.second == 0) {
        return x.tag <= node_tag::VARIABLE;
    }
    match x.tag {
        node_tag::ADDRESS | node_tag::NUMBER => true,
        node_tag::VARIABLE => x.second == 0,
        _ => false,
    }
}

// References and immediates apart, for speed: in one arm they take twice the instructions.
fn argument_allowed(x: Argument) -> bool
    ensures { result ≡ argument_allowed x }
{
    match x.form {
        argument_form::IDENTIFIER => x.second == 0,
        argument_form::REFERENCE => true,
        argument_form::IMMEDIATE => true,
        _ => false,
    }
}

pub fn regions_allowed(regions: &[u64]) -> bool
    ensures { result ≡ regions_allowed regions.now }
{
    let rows = regions.len() / REGION_WIDTH;
    (0..rows).all(|row| region_allowed(region_at(regions, row)))
}

pub fn externs_allowed(externs: &[u64], parameters: usize) -> bool
    ensures { result ≡ externs_allowed parameters externs.now }
{
    let rows = externs.len() / EXTERN_WIDTH;
    (0..rows).all(|row| extern_allowed(extern_at(externs, row), parameters))
}

pub fn parameters_allowed(parameters: &[u64]) -> bool
    ensures { result ≡ parameters_allowed parameters.now }
{
    let rows = parameters.len() / PARAMETER_WIDTH;
    (0..rows).all(|row| parameter_allowed(parameter_at(parameters, row)))
}

// The nodes from `first` to before `end`.
pub fn nodes_allowed(nodes: &[u64], first: usize, end: usize) -> bool
    requires { end ≤ node_rows nodes.now }
    ensures { result ≡ nodes_allowed_from nodes.now first (end - first) }
{
    (first..end).all(|row| node_allowed(node_at(nodes, row)))
}

pub fn arguments_allowed(arguments: &[u64]) -> bool
    ensures { result ≡ arguments_allowed arguments.now }
{
    let rows = arguments.len() / ARGUMENT_WIDTH;
    (0..rows).all(|row| argument_allowed(argument_at(arguments, row)))
}
