//! The inputs of samples.
ghost use Rattle.std.specs.Prelude.{◌≡◌, ◌<◌, ◌≤◌, ◌^◌, length, map, pos, slice_index_or, All, IfOk};
ghost use Rattle.std.specs.List.{range_with_len};
ghost use Rattle.trace_pair.specs.Inputs.{grid, grid_value, word_value, words, generator_of, input_of, IsNear};

use c_ast::Settings;
use rand_core::utils::NextWord;
use rand_pcg::Lcg64Xsh32;
use std::alloc::{AllocError, Global};

#[tactic(auto, using(crate::proofs::Grid::power_is_small, crate::proofs::Grid::power_is_positive))]
fn power_of_five(exponent: u32) -> u32
    requires { exponent ≤ 3 }
    ensures power { result ≡ 5 ^ exponent }
    ensures positive { 0 < result }
{
    5_u32.pow(exponent)
}

/// The grid's value with the number.
fn grid_entry(number: u32) -> i128
    requires { number < 5 }
    ensures { result ≡ slice_index_or grid number (pos 0) }
{
    match number {
        0 => 0,
        1 => 1,
        2 => 2,
        3 => -1,
        _ => 7,
    }
}

/// The value of a parameter at an index of the grid.
fn grid_value(index: u32, parameter: u32) -> i128
    ensures { result ≡ grid_value index parameter }
{
    if parameter < 3 {
        grid_entry(index / power_of_five(parameter) % 5)
    } else {
        0
    }
}

/// The values of all parameters at an index of the grid.
fn grid_input(alloc: Global, index: u32, arity: u32) -> Result<Vec<i128>, AllocError>
    ensures { IfOk result
        (λ values. values.items ≡ map (grid_value index) (range_with_len 0 arity)) }
{
    let mut values = Vec::new(alloc);
    for parameter in 0..arity {
        values.push(grid_value(index, parameter))?;
    }
    Ok(values)
}

fn word_value(word: u32) -> i128
    ensures { result ≡ word_value word }
{
    (word % 41) as i128 - 20
}

/// The values of all parameters at a later index.
fn later_input(alloc: Global, seed: u64, index: u32, arity: u32) -> Result<Vec<i128>, AllocError>
    ensures { IfOk result
        (λ values. values.items ≡ map word_value (words arity (generator_of seed index))) }
{
    let mut generator = Lcg64Xsh32::new(seed, index as u64);
    let mut values = Vec::new(alloc);
    for _parameter in 0..arity {
        values.push(word_value(generator.next_word()))?;
    }
    Ok(values)
}

/// As many values as `arity`, one for each parameter in their order, each from -20 to 20; or want
/// of memory. The first 5, 25 or 125 indexes, by the number of parameters, try all choices of 0, 1,
/// 2, -1 and 7 for the first three, the first one changing fastest, with 0 for all others. Later
/// ones take words of the generator with the settings' seed, on a stream of the index's own.
pub fn input(
    alloc: Global,
    settings: &Settings,
    index: u32,
    arity: u32,
) -> Result<Vec<i128>, AllocError>
    ensures values { IfOk result (λ values. values.items ≡ input_of settings.now index arity) }
    ensures arity { IfOk result (λ values. length values.items ≡ arity) }
    ensures near { IfOk result (λ values. All IsNear values.items) }
{
    if index < power_of_five(arity.min(3)) {
        grid_input(alloc, index, arity)
    } else {
        later_input(alloc, settings.seed(), index, arity)
    }
}
