//! Families, told by their nodes and atoms. The values at a node are told by labels: those of the
//! variables in scope at side A's place, then at side B's; at an exit the result has one.
ghost use Rattle.std.specs.Prelude.{◌≡◌, ◌++◌, ◌∷◌, [], ℕ, List, ℤ, length, map, All, flat_map, IfOk, OnOk, string_bytes};
ghost use Rattle.c_ast.specs.Scope.{IsPlace};
ghost use Rattle.c_ast.specs.Function.{program_of};
ghost use Rattle.horn_clauses.specs.Obligations.{FitsNode};
ghost use Rattle.report.specs.Families.{place_text, node_text, side_word, name_of, has_namesake, label, variables_at, labels_at, node_labels};
ghost use Rattle.report.specs.Families.{is_zero, is_below_zero, term_of, terms_of, sized_text, term_text, terms_text, sum_text, end_text, atom_text, entry_text, family_text};
ghost use Rattle.report.specs.Fits.{IsPlaceOf, IsNodeOf, FitsEntry, FitsFamily};

use c_ast::Side::{self, A, B, Pre};
use c_ast::{Func, Place, Subject, Var};
use horn_clauses::{Atom, Family, Node, Rel};
use sqlite_items::Items;
use std::alloc::{AllocError, Global};

/// Writes the word of the entry or the exit, or the number of a mark.
pub fn push_place(text: &mut String, place: Place) -> Result<(), AllocError>
    ensures { OnOk result (string_bytes text.new ≡ string_bytes text.old ++ place_text place) }
{
    match place {
        Place::Entry => text.push_str("entry"),
        Place::Mark(mark) => write!(text, "{mark}"),
        Place::Exit => text.push_str("exit"),
    }
}

/// Writes the node's two places.
pub fn push_node(text: &mut String, node: &Node) -> Result<(), AllocError>
    ensures { OnOk result
        (string_bytes text.new ≡ string_bytes text.old ++ node_text node.now) }
{
    push_place(text, node.0)?;
    text.push_str(" ")?;
    push_place(text, node.1)
}

/// The word of a side, or of the condition.
pub fn side_word(side: Side) -> &'static str
    ensures { result.now ≡ side_word side }
{
    match side {
        A => "A",
        B => "B",
        Pre => "pre",
    }
}

fn name_of(vars: &[Var], x: u32) -> &str
    ensures { result.now ≡ name_of vars.now x }
{
    match vars.get(x as usize) {
        Some(var) => var.name.text(),
        None => "",
    }
}

/// Whether a variable other than number `x` has the name.
fn has_namesake(x: u32, name: &str, vars: &[Var]) -> bool
    ensures { result ≡ has_namesake x name.now 0 vars.now }
{
    for (number, var) in vars.iter().enumerate() {
        if number != x as usize && var.name.text() == name {
            return true;
        }
    }
    false
}

fn label(alloc: Global, side: Side, vars: &[Var], x: u32) -> Result<String, AllocError>
    ensures { IfOk result (λ text. string_bytes text ≡ label side vars.now x) }
{
    let side = side_word(side);
    let name = name_of(vars, x);
    if has_namesake(x, name, vars) {
        return format!(in alloc; "{side}.{name}#{x}");
    }
    format!(in alloc; "{side}.{name}")
}

fn variables_at(alloc: Global, func: &Func, place: Place) -> Result<Vec<u32>, AllocError>
    requires { IsPlace (program_of func.now) place }
    ensures { IfOk result (λ variables. variables.items ≡ variables_at func.now place) }
{
    // That the function is well formed.
    let _ = func.body();
    func.scope(alloc, place)
}

/// Adds the labels of these variables.
fn push_variables(
    alloc: Global,
    labels: &mut Vec<String>,
    side: Side,
    vars: &[Var],
    variables: &[u32],
) -> Result<(), AllocError>
    ensures { OnOk result (map string_bytes labels.new.items
        ≡ map string_bytes labels.old.items ++ map (label side vars.now) variables.now) }
{
    for x in variables {
        labels.push(label(alloc, side, vars, *x)?)?;
    }
    Ok(())
}

/// Adds the labels of the variables in scope at the place.
fn push_scope(
    alloc: Global,
    labels: &mut Vec<String>,
    side: Side,
    func: &Func,
    place: Place,
) -> Result<(), AllocError>
    requires { IsPlace (program_of func.now) place }
    ensures { OnOk result (map string_bytes labels.new.items ≡ map string_bytes labels.old.items
        ++ map (label side func.now.vars) (variables_at func.now place)) }
{
    let variables = variables_at(alloc, func, place)?;
    push_variables(alloc, labels, side, func.vars(), &variables)
}

/// Adds the labels of the values at the place.
fn push_labels(
    alloc: Global,
    labels: &mut Vec<String>,
    side: Side,
    func: &Func,
    place: Place,
) -> Result<(), AllocError>
    requires { IsPlaceOf func.now place }
    ensures { OnOk result (map string_bytes labels.new.items
        ≡ map string_bytes labels.old.items ++ labels_at side func.now place) }
{
    match place {
        Place::Entry => push_scope(alloc, labels, side, func, place),
        Place::Mark(_) => push_scope(alloc, labels, side, func, place),
        Place::Exit => {
            let side = side_word(side);
            let label = format!(in alloc; "{side}.result")?;
            labels.push(label)?;
            Ok(())
        }
    }
}

fn node_labels(alloc: Global, subject: &Subject, node: &Node) -> Result<Vec<String>, AllocError>
    requires { IsNodeOf subject.now node.now }
    ensures { IfOk result
        (λ labels. map string_bytes labels.items ≡ node_labels subject.now node.now) }
{
    let mut labels = Vec::new(alloc);
    push_labels(alloc, &mut labels, A, subject.first(), node.0)?;
    push_labels(alloc, &mut labels, B, subject.second(), node.1)?;
    Ok(labels)
}

fn push_sized(text: &mut String, size: u64, label: &str) -> Result<(), AllocError>
    ensures { OnOk result
        (string_bytes text.new ≡ string_bytes text.old ++ sized_text size label.now) }
{
    if size != 1 {
        write!(text, "{size} ")?;
    }
    text.push_str(label)
}

/// The sign of a term, which stands behind others or is the first.
fn sign(later: bool, coef: &i64) -> &'static str
    ensures { (size : ℕ) (label : List ℕ)
        → result.now ++ sized_text size label
        ≡ term_text later
        (record { negative = is_below_zero coef.now; size = size; label = label }) }
{
    match (later, *coef < 0) {
        (true, true) => " - ",
        (true, false) => " + ",
        (false, true) => "-",
        (false, false) => "",
    }
}

fn push_term(text: &mut String, later: bool, coef: &i64, label: &str) -> Result<(), AllocError>
    ensures { OnOk result (string_bytes text.new
        ≡ string_bytes text.old ++ term_text later (term_of coef.now label.now)) }
{
    text.push_str(sign(later, coef))?;
    push_sized(text, coef.unsigned_abs(), label)
}

fn is_zero(coef: &i64) -> bool
    ensures { result ≡ is_zero coef.now }
{
    *coef == 0
}

/// Writes the term of the next coefficient and label, where there is one. Whether a term stands
/// there then.
fn push_next(text: &mut String, later: bool, coef: &i64, label: &str) -> Result<bool, AllocError>
    ensures { IfOk result (λ stands. (coefs : List ℤ) (labels : List (List ℕ))
        → string_bytes text.new ++ terms_text stands (terms_of coefs labels)
        ≡ string_bytes text.old
        ++ terms_text later (terms_of (coef.now ∷ coefs) (label.now ∷ labels))) }
{
    if is_zero(coef) {
        return Ok(later);
    }
    push_term(text, later, coef, label)?;
    Ok(true)
}

/// Writes the sum of the labels, each times its coefficient.
fn push_sum(text: &mut String, coefs: &[i64], labels: &[String]) -> Result<(), AllocError>
    requires { length coefs.now ≡ length labels.now }
    ensures { OnOk result (string_bytes text.new
        ≡ string_bytes text.old ++ sum_text (terms_of coefs.now (map string_bytes labels.now))) }
{
    let mut later = false;
    for (i, coef) in coefs.iter().enumerate() {
        later = push_next(text, later, coef, labels[i].as_str())?;
    }
    Ok(())
}

fn push_end(text: &mut String, rel: Rel, constant: &i64) -> Result<(), AllocError>
    ensures { OnOk result
        (string_bytes text.new ≡ string_bytes text.old ++ end_text rel constant.now) }
{
    match rel {
        Rel::Eq => write!(text, " = {constant}\n"),
        Rel::AtLeast => write!(text, " >= {constant}\n"),
    }
}

/// Writes the line of the atom over these labels.
fn push_atom(text: &mut String, labels: &[String], atom: &Atom) -> Result<(), AllocError>
    requires { FitsNode (length labels.now) atom.now }
    ensures { OnOk result (string_bytes text.new
        ≡ string_bytes text.old ++ atom_text (map string_bytes labels.now) atom.now) }
{
    match atom {
        Atom::False => text.push_str("  false\n"),
        Atom::Linear {
            coefs,
            constant,
            rel,
        } => {
            text.push_str("  ")?;
            push_sum(text, coefs.as_slice(), labels)?;
            push_end(text, *rel, constant)
        }
    }
}

fn push_atoms(text: &mut String, labels: &[String], atoms: &[Atom]) -> Result<(), AllocError>
    requires { All (FitsNode (length labels.now)) atoms.now }
    ensures { OnOk result (string_bytes text.new ≡ string_bytes text.old
        ++ flat_map (atom_text (map string_bytes labels.now)) atoms.now) }
{
    for atom in atoms {
        push_atom(text, labels, atom)?;
    }
    Ok(())
}

/// Writes the line of the node, and those of its atoms.
fn push_entry(
    alloc: Global,
    text: &mut String,
    subject: &Subject,
    entry: &(Node, Items<Atom>),
) -> Result<(), AllocError>
    requires { FitsEntry subject.now entry.now }
    ensures { OnOk result
        (string_bytes text.new ≡ string_bytes text.old ++ entry_text subject.now entry.now) }
{
    let labels = node_labels(alloc, subject, &entry.0)?;
    text.push_str("node ")?;
    push_node(text, &entry.0)?;
    text.push_str("\n")?;
    push_atoms(text, &labels, entry.1.as_slice())
}

/// Writes the family: for each node in order its line, and then those of its atoms.
pub fn push_family(
    alloc: Global,
    text: &mut String,
    subject: &Subject,
    family: &Family,
) -> Result<(), AllocError>
    requires { FitsFamily subject.now family.now }
    ensures { OnOk result
        (string_bytes text.new ≡ string_bytes text.old ++ family_text subject.now family.now) }
{
    for entry in family.nodes.as_slice() {
        push_entry(alloc, text, subject, entry)?;
    }
    Ok(())
}
