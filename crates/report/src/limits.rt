//! Why an alignment has no coupling, told by a few words and the family that was left.
ghost use Rattle.std.specs.Prelude.{◌≡◌, ◌≢◌, ◌++◌, codes, OnOk, string_bytes};
ghost use Rattle.report.specs.Families.{place_text, node_text, side_word};
ghost use Rattle.report.specs.Limits.{path_limit_word, product_limit_text, row_limit_word, obligation_limit_text, why_words, left_text, why_text};
ghost use Rattle.report.specs.Fits.{IsKeptLimit, IsKeptWhy, HasFittingLeft, FitsWhy};

use crate::family::{push_family, push_node, push_place, side_word};
use c_ast::{Place, Side, Subject};
use elimination::Limit;
use horn_clauses::Node;
use path_product::ProductLimit;
use pool_core::Why;
use std::alloc::{AllocError, Global};
use sym_paths::PathLimit;

fn path_limit_word(limit: PathLimit) -> &'static str
    requires { limit ≢ PathLimit.Memory }
    ensures { result.now ≡ path_limit_word limit }
{
    match limit {
        PathLimit::NonLinear => "non-linear",
        PathLimit::WideForm => "wide-form",
        PathLimit::ManyUnknowns => "many-unknowns",
        PathLimit::ManyPaths => "many-paths",
        PathLimit::Memory => unreachable!(),
    }
}

fn push_pre_limit(text: &mut String, limit: PathLimit) -> Result<(), AllocError>
    requires { limit ≢ PathLimit.Memory }
    ensures { OnOk result (string_bytes text.new
        ≡ string_bytes text.old ++ (path_limit_word limit ++ codes " pre")) }
{
    text.push_str(path_limit_word(limit))?;
    text.push_str(" pre")
}

fn push_place_limit(
    text: &mut String,
    side: Side,
    place: Place,
    limit: PathLimit,
) -> Result<(), AllocError>
    requires { limit ≢ PathLimit.Memory }
    ensures { OnOk result (string_bytes text.new ≡ string_bytes text.old
        ++ (path_limit_word limit ++ (codes " " ++ (side_word side
        ++ (codes " " ++ place_text place))))) }
{
    text.push_str(path_limit_word(limit))?;
    text.push_str(" ")?;
    text.push_str(side_word(side))?;
    text.push_str(" ")?;
    push_place(text, place)
}

fn push_node_limit(text: &mut String, word: &str, node: &Node) -> Result<(), AllocError>
    ensures { OnOk result
        (string_bytes text.new ≡ string_bytes text.old ++ (word.now ++ node_text node.now)) }
{
    text.push_str(word)?;
    push_node(text, node)
}

/// Writes the words of a limit of the product.
fn push_product_limit(text: &mut String, limit: &ProductLimit) -> Result<(), AllocError>
    requires { IsKeptLimit limit.now }
    ensures { OnOk result
        (string_bytes text.new ≡ string_bytes text.old ++ product_limit_text limit.now) }
{
    match limit {
        ProductLimit::AtPre(limit) => push_pre_limit(text, *limit),
        ProductLimit::AtPlace { side, place, limit } => {
            push_place_limit(text, *side, *place, *limit)
        }
        ProductLimit::ManyVariables(node) => push_node_limit(text, "many-variables ", node),
        ProductLimit::WideForm(node) => push_node_limit(text, "wide-form ", node),
        ProductLimit::ManyUnknowns(node) => push_node_limit(text, "many-unknowns ", node),
        ProductLimit::ManyPaths(node) => push_node_limit(text, "many-paths ", node),
        ProductLimit::Memory => unreachable!(),
    }
}

fn row_limit_word(limit: Limit) -> &'static str
    requires { limit ≢ Limit.Memory }
    ensures { result.now ≡ row_limit_word limit }
{
    match limit {
        Limit::WideRow => "wide-row",
        Limit::ManyRows => "many-rows",
        Limit::Memory => unreachable!(),
    }
}

fn push_obligation_limit(
    text: &mut String,
    limit: Limit,
    obligation: usize,
) -> Result<(), AllocError>
    requires { limit ≢ Limit.Memory }
    ensures { OnOk result
        (string_bytes text.new ≡ string_bytes text.old ++ obligation_limit_text limit obligation) }
{
    text.push_str(row_limit_word(limit))?;
    write!(text, " {obligation}")
}

/// Writes the words of a reason.
pub fn push_why_words(text: &mut String, why: &Why) -> Result<(), AllocError>
    requires { IsKeptWhy why.now }
    ensures { OnOk result (string_bytes text.new ≡ string_bytes text.old ++ why_words why.now) }
{
    match why {
        Why::NoCoupling => text.push_str("no-coupling"),
        Why::Product(limit) => push_product_limit(text, limit),
        Why::AtObligation {
            obligation,
            limit,
            ..
        } => push_obligation_limit(text, *limit, *obligation),
    }
}

fn push_left(
    alloc: Global,
    text: &mut String,
    subject: &Subject,
    why: &Why,
) -> Result<(), AllocError>
    requires { HasFittingLeft subject.now why.now }
    ensures { OnOk result
        (string_bytes text.new ≡ string_bytes text.old ++ left_text subject.now why.now) }
{
    match why {
        Why::AtObligation { left, .. } => push_family(alloc, text, subject, left),
        Why::NoCoupling | Why::Product(_) => Ok(()),
    }
}

/// Writes the rest of the reason's line, and the family that was left.
pub fn push_why(
    alloc: Global,
    text: &mut String,
    subject: &Subject,
    why: &Why,
) -> Result<(), AllocError>
    requires { FitsWhy subject.now why.now }
    ensures { OnOk result
        (string_bytes text.new ≡ string_bytes text.old ++ why_text subject.now why.now) }
{
    push_why_words(text, why)?;
    text.push_str("\n")?;
    push_left(alloc, text, subject, why)
}
