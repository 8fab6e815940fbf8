//! Lists of indexes, told by their runs.
ghost use Rattle.std.specs.Prelude.{◌≡◌, ◌==◌, suc, ◌++◌, IfOk, OnOk, string_bytes};
ghost use Rattle.report.specs.Indexes.{run_text, indexes_text};

use std::alloc::{AllocError, Global};

/// Whether `index` goes on with a run that ends in `last`.
fn goes_on(last: u32, index: u32) -> bool
    ensures { result ≡ (index == suc last) }
{
    last.checked_add(1) == Some(index)
}

fn push_run(text: &mut String, first: u32, last: u32) -> Result<(), AllocError>
    ensures { OnOk result
        (string_bytes text.new ≡ string_bytes text.old ++ run_text (first, last)) }
{
    if first == last {
        write!(text, "{first}")
    } else {
        write!(text, "{first}-{last}")
    }
}

/// The indexes by their maximal runs of successive rising numbers, with a space between each two:
/// `0-1 3` for 0, 1 and 3. An empty list is `none`. The one error is want of memory.
pub fn indexes_text(alloc: Global, indexes: &[u32]) -> Result<String, AllocError>
    ensures { IfOk result (λ text. string_bytes text ≡ indexes_text indexes.now) }
{
    let Some((first, others)) = indexes.split_first() else {
        return String::from_str(alloc, "none");
    };
    let mut text = String::new(alloc);
    let mut first = *first;
    let mut last = first;
    for index in others {
        if !goes_on(last, *index) {
            push_run(&mut text, first, last)?;
            text.push(' ')?;
            first = *index;
        }
        last = *index;
    }
    push_run(&mut text, first, last)?;
    Ok(text)
}
