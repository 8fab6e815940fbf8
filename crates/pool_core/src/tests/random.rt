//! Random calls of a pool, compared with a plain list of what was added.
ghost use Rattle.std.specs.Prelude.{◌<◌};

use super::Answer::{At, Is, Lacks, Refused};
use super::Body::{Above, Squared};
use super::Call::{
    Conclude, Differ, Mine, MineBeside, MineLate, Tell, TellBeside, TellOther, Try, TryBeside,
};
use super::{
    Answer, Call, Entry, Functions, Kind, alignment_at, are_entries, ask, pool_of, subject_of,
};
use crate::PoolRefused::{Closed, Double, Memory, NoPair, Stale, Stranger, Unmined};
use crate::{Missing, Pool, PoolRefused};
use c_ast::Subject;
use std::alloc::{AllocError, Global};
use std::test::Fail;
use trace_pair::input;

/// How many calls are made of a pool.
const CALLS: u32 = 1000;

// ---- what is read from a list

/// What no two items share: the entry without its worker, and a skipped sample as a pair.
fn key_of(entry: &Entry) -> Entry {
    match entry {
        Entry::Pair(_, index) | Entry::Skipped(_, index) => Entry::Pair(0, *index),
        Entry::Mined(_, prefix, number) => Entry::Mined(0, *prefix, *number),
        Entry::Tried(_, prefix, number) => Entry::Tried(0, *prefix, *number),
        Entry::Posted(_, kind) => Entry::Posted(0, *kind),
    }
}

/// Where an item with the entry's key stands.
fn place_of(entries: &[Entry], entry: Entry) -> Option<u32> {
    let key = key_of(&entry);
    for (place, other) in entries.iter().enumerate() {
        if key_of(other) == key {
            return u32::try_from(place).ok();
        }
    }
    None
}

/// The worker and the index of the pair with this number, where there are as many.
fn pair_at(entries: &[Entry], number: u32) -> Option<(u32, u32)> {
    let mut count = 0u32;
    for entry in entries {
        if let Entry::Pair(worker, index) = entry {
            if count == number {
                return Some((*worker, *index));
            }
            count = count.wrapping_add(1);
        }
    }
    None
}

fn index_at(entries: &[Entry], number: u32) -> Option<u32> {
    match pair_at(entries, number) {
        Some((_, index)) => Some(index),
        None => None,
    }
}

fn count_pairs(entries: &[Entry]) -> u32 {
    let mut count = 0u32;
    for entry in entries {
        if let Entry::Pair(..) = entry {
            count = count.wrapping_add(1);
        }
    }
    count
}

/// Whether the first pairs have the indexes of the others' pairs.
fn begin_with(entries: &[Entry], others: &[Entry]) -> bool {
    for number in 0..count_pairs(others) {
        if index_at(entries, number) != index_at(others, number) {
            return false;
        }
    }
    true
}

/// Whether the worker added one of the pairs behind the first so many.
fn has_later(entries: &[Entry], worker: u32, count: u32) -> bool {
    for number in count..count_pairs(entries) {
        if let Some((other, _)) = pair_at(entries, number) {
            if other == worker {
                return true;
            }
        }
    }
    false
}

/// The posted verdict, which is the last item.
fn verdict_of(entries: &[Entry]) -> Option<Kind> {
    match entries.last() {
        Some(Entry::Posted(_, kind)) => Some(*kind),
        _ => None,
    }
}

// ---- what calls answer

/// What refuses the call before anything else does.
fn barred(entries: &[Entry], is_own: bool) -> Option<PoolRefused> {
    if verdict_of(entries).is_some() {
        return Some(Closed);
    }
    if is_own { None } else { Some(Stranger) }
}

fn add(entries: &mut Vec<Entry>, entry: Entry) -> Answer {
    let Ok(place) = u32::try_from(entries.len()) else {
        return Refused(Memory);
    };
    match entries.push(entry) {
        Ok(()) => At(place),
        Err(_) => Refused(Memory),
    }
}

fn add_new(entries: &mut Vec<Entry>, entry: Entry) -> Answer {
    match place_of(entries.as_slice(), entry) {
        Some(place) => Refused(Double(place)),
        None => add(entries, entry),
    }
}

/// Of a sample, which is a pair where its input is not 0.
fn tells(entries: &mut Vec<Entry>, worker: u32, is_own: bool, index: u32, input: i128) -> Answer {
    if let Some(why) = barred(entries.as_slice(), is_own) {
        return Refused(why);
    }
    if input == 0 {
        return add_new(entries, Entry::Skipped(worker, index));
    }
    add_new(entries, Entry::Pair(worker, index))
}

/// Of candidates of so many pairs, which are the first or not.
fn mines(
    entries: &mut Vec<Entry>,
    worker: u32,
    is_own: bool,
    is_first: bool,
    prefix: u32,
    number: u32,
) -> Answer {
    if let Some(why) = barred(entries.as_slice(), is_own) {
        return Refused(why);
    }
    if !is_first || has_later(entries.as_slice(), worker, prefix) {
        return Refused(Stale(prefix as usize));
    }
    add_new(entries, Entry::Mined(worker, prefix, number))
}

/// Of a reason on so many pairs, which are the first or not.
fn tries(
    entries: &mut Vec<Entry>,
    worker: u32,
    is_own: bool,
    is_first: bool,
    prefix: u32,
    number: u32,
) -> Answer {
    if let Some(why) = barred(entries.as_slice(), is_own) {
        return Refused(why);
    }
    if !is_first {
        return Refused(Stale(prefix as usize));
    }
    if place_of(entries.as_slice(), Entry::Mined(0, prefix, number)).is_none() {
        return Refused(Unmined(number));
    }
    add_new(entries, Entry::Tried(worker, prefix, number))
}

/// Of a difference, which is that of the sample or not.
fn differs(entries: &mut Vec<Entry>, index: u32, is_right: bool, kind: Kind) -> Answer {
    if let Some(why) = barred(entries.as_slice(), true) {
        return Refused(why);
    }
    if !is_right || place_of(entries.as_slice(), Entry::Pair(0, index)).is_none() {
        return Refused(NoPair(index));
    }
    add(entries, Entry::Posted(0, kind))
}

/// Where a verdict is asked for: the results of each pair differ, and not all samples are skipped.
fn concludes(entries: &[Entry], samples: u32) -> Answer {
    if let Some(kind) = verdict_of(entries) {
        return Is(kind);
    }
    for index in 0..samples {
        if place_of(entries, Entry::Pair(0, index)).is_none() {
            return Lacks(Missing::Sample(index));
        }
    }
    for (place, entry) in entries.iter().enumerate() {
        if let Entry::Pair(..) = entry {
            return Lacks(Missing::Differs(u32::try_from(place).unwrap_or(u32::MAX)));
        }
    }
    Lacks(Missing::Memory)
}

/// The input of the sample, where there is one.
fn input_at(inputs: &[i128], index: u32) -> i128 {
    match inputs.get(index as usize) {
        Some(input) => *input,
        None => 0,
    }
}

/// Whether these are the sample's input, which is not 0, and a * a and a + 1 of it, which differ.
fn is_right(input: i128, given: i128, first: i128, second: i128) -> bool {
    input != 0
        && given == input
        && first == input.wrapping_mul(input)
        && second == input.wrapping_add(1)
        && first != second
}

/// What the call answers, by the lists of both pools alone.
fn wanted(
    entries: &mut Vec<Entry>,
    others: &mut Vec<Entry>,
    inputs: &[i128],
    is_own: bool,
    call: Call,
) -> Answer {
    let is_first = begin_with(entries.as_slice(), others.as_slice());
    let count = count_pairs(entries.as_slice());
    let beside = count_pairs(others.as_slice());
    match call {
        Tell(worker, index) => tells(entries, worker, true, index, input_at(inputs, index)),
        TellOther(worker, index) => {
            tells(entries, worker, is_own, index, input_at(inputs, index))
        }
        TellBeside(worker, index) => tells(others, worker, true, index, input_at(inputs, index)),
        Mine(worker, at) => mines(entries, worker, true, true, count, number_of(at)),
        MineBeside(worker, at) => {
            mines(entries, worker, is_own, is_first, beside, number_of(at))
        }
        MineLate(worker, at, index) => {
            let _ = tells(entries, worker, true, index, input_at(inputs, index));
            mines(entries, worker, true, true, count, number_of(at))
        }
        Try(worker, at) => tries(entries, worker, true, true, count, number_of(at)),
        TryBeside(worker, at) => { tries(entries, worker, is_own, is_first, beside, number_of(at)) }
        Differ(index, input, first, second) => {
            let right = is_right(input_at(inputs, index), input, first, second);
            differs(
                entries,
                index,
                right,
                Kind::Different(index, input, first, second),
            )
        }
        _ => concludes(
            entries.as_slice(),
            u32::try_from(inputs.len()).unwrap_or(u32::MAX),
        ),
    }
}

/// The number of the alignment at this place.
fn number_of(at: usize) -> u32 {
    alignment_at(at).number()
}

// ---- random calls

/// The next word below this, by a linear congruence.
fn draw(word: &mut u32, below: u32) -> u32
    requires { 0 < below }
{
    *word = word.wrapping_mul(1664525).wrapping_add(1013904223);
    (*word >> 8) % below
}

fn random_call(word: &mut u32, inputs: &[i128]) -> Call {
    let worker = draw(word, 3);
    let index = draw(word, 24);
    let at = draw(word, 3) as usize;
    let input = input_at(inputs, index);
    match draw(word, 600) {
        0 => Differ(
            index,
            input,
            input.wrapping_mul(input),
            input.wrapping_add(1),
        ),
        1..=20 => Differ(index, input, input, input.wrapping_add(1)),
        21..=40 => Differ(
            index,
            input.wrapping_add(1),
            input.wrapping_mul(input),
            input,
        ),
        41..=140 => Tell(worker, index),
        141..=160 => TellOther(worker, index),
        161..=200 => TellBeside(worker, index),
        201..=300 => Mine(worker, at),
        301..=360 => MineBeside(worker, at),
        361..=400 => MineLate(worker, at, index),
        401..=500 => Try(worker, at),
        501..=560 => TryBeside(worker, at),
        _ => Conclude,
    }
}

// ---- histories

/// The number of the first call that answers otherwise; or that of all where the histories are
/// others.
fn first_wrong(
    alloc: Global,
    pool: &mut Pool,
    beside: &mut Pool,
    subject: &Subject,
    other: &Subject,
    entries: &mut Vec<Entry>,
    others: &mut Vec<Entry>,
    inputs: &[i128],
    seed: u32,
) -> Option<u32> {
    let is_own = subject.same(other);
    let mut word = seed;
    for number in 0..CALLS {
        let call = random_call(&mut word, inputs);
        let want = wanted(entries, others, inputs, is_own, call);
        if ask(alloc, pool, beside, subject, other, call) != want {
            return Some(number);
        }
    }
    let same = are_entries(pool.history(), entries.as_slice());
    if same { None } else { Some(CALLS) }
}

/// The inputs of all samples.
fn inputs_of(alloc: Global, subject: &Subject) -> Result<Vec<i128>, AllocError> {
    let settings = subject.settings();
    let mut inputs = Vec::new(alloc);
    for index in 0..settings.samples() {
        match input(alloc, &settings, index, 1)?.first() {
            Some(value) => inputs.push(*value)?,
            None => return Err(AllocError),
        }
    }
    Ok(inputs)
}

fn play_over(
    alloc: Global,
    subject: &Subject,
    other: &Subject,
    inputs: &[i128],
    seed: u32,
) -> Result<Option<u32>, AllocError> {
    let mut beside = pool_of(alloc, other)?;
    let mut pool = pool_of(alloc, subject)?;
    let mut entries = Vec::new(alloc);
    let mut others = Vec::new(alloc);
    Ok(first_wrong(
        alloc,
        &mut pool,
        &mut beside,
        subject,
        other,
        &mut entries,
        &mut others,
        inputs,
        seed,
    ))
}

/// Plays random calls on a new pool about the functions, beside one about the others.
fn play(
    alloc: Global,
    functions: Functions,
    others: Functions,
    seed: u32,
) -> Result<Option<u32>, AllocError> {
    let subject = subject_of(alloc, functions)?;
    let other = subject_of(alloc, others)?;
    let inputs = inputs_of(alloc, &subject)?;
    play_over(alloc, &subject, &other, inputs.as_slice(), seed)
}

#[test]
fn random_calls_answer_as_a_list_does(rt: HostRuntime) -> Result<(), Fail> {
    let alloc = rt.alloc();
    let (functions, more) = ((Squared, Above, 24, true), (Squared, Above, 25, true));
    for seed in 0..4 {
        assert_eq!(rt; play(alloc, functions, functions, seed)?, None, "{seed}");
        assert_eq!(rt; play(alloc, functions, more, seed)?, None, "{seed}");
    }
    Ok(())
}
