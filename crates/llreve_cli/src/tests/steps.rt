//! Steps of runs of random texts, each from one place to the next: of the cases of the segments
//! from a place exactly one holds at the values there, and it leads where the run leads.
ghost use Rattle.flow_graph.specs.FlowGraph.{GoesOnAt};

use super::random::{INPUTS, text_of};
use super::runs::{both_ways, function};
use c_ast::{Func, Outcome, Place, Trace};
use flow_graph::{Graph, build};
use lin_terms::{Form, Row};
use std::alloc::{AllocError, Global};
use std::test::Fail;
use sym_paths::{Case, segments};

/// A run comes from a place, with these values there, to the next one, with these.
#[derive(Drop)]
struct Step {
    from: Place,
    values: Vec<i128>,
    to: Place,
    after: Vec<i128>,
}

/// The steps of the run with this trace.
fn steps_of(alloc: Global, inputs: &[i128], trace: &Trace) -> Result<Vec<Step>, AllocError> {
    let mut steps = Vec::new(alloc);
    let mut from = Place::Entry;
    let mut values = inputs.to_vec(alloc)?;
    for event in trace.events.as_slice() {
        steps.push(Step {
            from,
            values,
            to: Place::Mark(event.mark),
            after: event.values.as_slice().to_vec(alloc)?,
        })?;
        from = Place::Mark(event.mark);
        values = event.values.as_slice().to_vec(alloc)?;
    }
    let mut after = Vec::new(alloc);
    after.push(trace.result)?;
    steps.push(Step {
        from,
        values,
        to: Place::Exit,
        after,
    })?;
    Ok(steps)
}

/// The value at a point, over the columns that it has.
fn value(coefs: &[i64], constant: i64, point: &[i128]) -> i128 {
    let mut sum = i128::from(constant);
    for (coef, number) in coefs.iter().zip(point) {
        sum = sum.saturating_add(i128::from(*coef).saturating_mul(*number));
    }
    sum
}

/// The greatest number for the column behind the point with which the row can hold, where it has no
/// column behind that one.
fn greatest(row: &Row, point: &[i128]) -> Option<i128> {
    let (_, rest) = row.coefs.as_slice().split_at_checked(point.len())?;
    let (coef, others) = rest.split_first()?;
    if *coef >= 0 || others.iter().any(|other| *other != 0) {
        return None;
    }
    value(row.coefs.as_slice(), row.constant, point).checked_div_euclid(-i128::from(*coef))
}

/// The only number that can do for the column behind the point: a quotient has two rows of its own,
/// which leave one number.
fn next_unknown(rows: &[Row], point: &[i128]) -> i128 {
    let mut found = i128::MAX;
    for row in rows {
        if let Some(bound) = greatest(row, point) {
            found = found.min(bound);
        }
    }
    found
}

/// The values, and behind them the numbers for the unknowns.
fn solved(alloc: Global, rows: &[Row], values: &[i128]) -> Result<Vec<i128>, AllocError> {
    let columns = rows.first().map_or(0, |row| row.coefs.len());
    let mut point = values.to_vec(alloc)?;
    for _ in values.len()..columns {
        let number = next_unknown(rows, point.as_slice());
        point.push(number)?;
    }
    Ok(point)
}

fn holds(row: &Row, point: &[i128]) -> bool {
    let value = value(row.coefs.as_slice(), row.constant, point);
    if row.equality { value == 0 } else { value >= 0 }
}

fn has_value(form: &Form, point: &[i128], want: i128) -> bool {
    value(form.coefs.as_slice(), form.constant, point) == want
}

fn have_values(forms: &[Form], point: &[i128], wants: &[i128]) -> bool {
    forms.len() == wants.len()
        && forms
            .iter()
            .zip(wants)
            .all(|(form, want)| has_value(form, point, *want))
}

/// Whether the forms have the values that are wanted, where all rows hold at the values; `None`
/// where one does not.
pub(super) fn gives(
    alloc: Global,
    rows: &[Row],
    forms: &[Form],
    values: &[i128],
    wants: &[i128],
) -> Result<Option<bool>, AllocError> {
    let point = solved(alloc, rows, values)?;
    if rows.iter().all(|row| holds(row, point.as_slice())) {
        Ok(Some(have_values(forms, point.as_slice(), wants)))
    } else {
        Ok(None)
    }
}

/// Whether the case, where it holds, leads where the step leads; `None` where it does not hold.
fn leads(alloc: Global, case: &Case, step: &Step) -> Result<Option<bool>, AllocError> {
    let (rows, forms) = (case.rows.as_slice(), case.after.as_slice());
    let given = gives(
        alloc,
        rows,
        forms,
        step.values.as_slice(),
        step.after.as_slice(),
    )?;
    Ok(given.map(|same| same && case.to == step.to))
}

/// Whether exactly one of the cases holds, and leads where the step leads.
fn one_leads(alloc: Global, cases: &[Case], step: &Step) -> Result<bool, AllocError> {
    let mut holding = 0_u32;
    for case in cases {
        match leads(alloc, case, step)? {
            None => {}
            Some(false) => return Ok(false),
            Some(true) => holding = holding.saturating_add(1),
        }
    }
    Ok(holding == 1)
}

/// How many steps were looked at, and how many begin where the walk meets a limit.
#[derive(Clone, Copy)]
struct Tally {
    steps: u32,
    limits: u32,
}

/// Whether one case of the place leads where each step from there leads.
fn are_led(
    alloc: Global,
    graph: &Graph,
    place: Place,
    steps: &[Step],
    tally: &mut Tally,
) -> Result<bool, AllocError>
    requires { GoesOnAt graph.now place }
{
    let cases = segments(alloc, graph, place);
    for step in steps {
        if step.from == place {
            tally.steps = tally.steps.saturating_add(1);
            match &cases {
                Err(_) => tally.limits = tally.limits.saturating_add(1),
                Ok(cases) => {
                    if !one_leads(alloc, cases.as_slice(), step)? {
                        return Ok(false);
                    }
                }
            }
        }
    }
    Ok(true)
}

/// The steps of the runs that return.
fn steps_on(alloc: Global, func: &Func) -> Result<Vec<Step>, Fail> {
    let mut steps = Vec::new(alloc);
    for inputs in INPUTS.as_slice() {
        if let Some(Outcome::Returned(trace)) = both_ways(alloc, func, inputs.as_slice())? {
            steps.append(&mut steps_of(alloc, inputs.as_slice(), &trace)?)?;
        }
    }
    Ok(steps)
}

/// Whether all steps of the text's runs are led.
fn text_is_led(alloc: Global, text: &str, tally: &mut Tally) -> Result<bool, Fail> {
    let func = function(alloc, text)?;
    let steps = steps_on(alloc, &func)?;
    let graph = build(alloc, &func)?;
    for place in &graph.places(alloc)? {
        let led = match place {
            Place::Exit => true,
            Place::Entry => are_led(alloc, &graph, Place::Entry, steps.as_slice(), tally)?,
            Place::Mark(mark) => {
                are_led(alloc, &graph, Place::Mark(*mark), steps.as_slice(), tally)?
            }
        };
        if !led {
            return Ok(false);
        }
    }
    Ok(true)
}

#[test]
fn one_case_leads_where_a_run_leads(rt: HostRuntime) -> Result<(), Fail> {
    let mut tally = Tally {
        steps: 0,
        limits: 0,
    };
    for number in 0..150 {
        let text = text_of(rt.alloc(), number)?;
        assert!(rt;
            text_is_led(rt.alloc(), text.as_str(), &mut tally)?,
            "{}",
            text.as_str()
        );
    }
    let Tally { steps, limits } = tally;
    assert!(rt; steps >= 3_000 && limits <= 2_000, "{steps} {limits}");
    Ok(())
}
