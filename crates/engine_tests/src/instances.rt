//! Runs of reactions: what answers enter, and the effects that are told, in their order.

use exec_instance::answer::{Answer, Answers};
use exec_instance::change::Change;
use exec_instance::effect::{Effect, Reason};
use exec_instance::instances::Instances;
use hh_base::value::{Kind, NoMemory, Value, Values};
use std::alloc::Global;
use std::test::Fail;

/// One reaction: the answers that are tried, by id, number (a unit value for `NO_NUMBER`) and whether they are
/// last; the changes, by id (0 for a start) and what happened: `u`sed, `e`nded, `h`eld, `r`esumed, runs
/// `a`fter; and the effects that are told.
struct Reaction {
    answers: &'static [(u64, i64, bool)],
    changes: &'static [(u64, &'static str)],
    told: &'static [(&'static str, u64, i64)],
}

const NO_NUMBER: i64 = -1;

const STARTED: Reaction = Reaction {
    answers: &[],
    changes: &[(0, "a")],
    told: &[("start", 1, 4)],
};

/// Runs of reactions, from no instance and the last id 0.
const RUNS: [&[Reaction]; 7] = [
    // An answer ends the instance; a later one is stale.
    &[
        STARTED,
        Reaction {
            answers: &[(1, 5, true)],
            changes: &[(1, "er")],
            told: &[("end", 1, 5)],
        },
        Reaction {
            answers: &[(1, 6, true)],
            changes: &[],
            told: &[("stale", 1, 0)],
        },
    ],
    // Of two tries for one id, the first is of another kind and the second enters.
    &[
        STARTED,
        Reaction {
            answers: &[
                (1, NO_NUMBER, true),
                (1, 5, true),
                (9, 5, true),
                (0, 5, true),
            ],
            changes: &[(1, "er")],
            told: &[
                ("mistyped", 1, 0),
                ("unknown", 9, 0),
                ("unknown", 0, 0),
                ("end", 1, 5),
            ],
        },
    ],
    // It is killed and another started; the late answer does not go to the new one.
    &[
        STARTED,
        Reaction {
            answers: &[(1, 5, true)],
            changes: &[(1, ""), (0, "a")],
            told: &[("kill", 1, 0), ("start", 2, 4)],
        },
        Reaction {
            answers: &[(1, 7, true)],
            changes: &[(2, "ra")],
            told: &[("stale", 1, 0)],
        },
    ],
    // It is held with an answer and takes no second one; then it ends.
    &[
        STARTED,
        Reaction {
            answers: &[],
            changes: &[(1, "ha")],
            told: &[("suspend", 1, 0)],
        },
        Reaction {
            answers: &[(1, 5, true)],
            changes: &[(1, "ha")],
            told: &[],
        },
        Reaction {
            answers: &[(1, 6, true)],
            changes: &[(1, "er")],
            told: &[("repeated", 1, 0), ("end", 1, 5)],
        },
    ],
    // It is held and resumed.
    &[
        STARTED,
        Reaction {
            answers: &[],
            changes: &[(1, "ha")],
            told: &[("suspend", 1, 0)],
        },
        Reaction {
            answers: &[],
            changes: &[(1, "ra")],
            told: &[("resume", 1, 0)],
        },
    ],
    // Two partial answers and the last one are used one in a reaction, also where it is resumed.
    &[
        STARTED,
        Reaction {
            answers: &[(1, 5, false), (1, 6, false), (1, 7, true), (1, 8, false)],
            changes: &[(1, "ura")],
            told: &[("repeated", 1, 0), ("more", 1, 5)],
        },
        Reaction {
            answers: &[],
            changes: &[(1, "ha")],
            told: &[("suspend", 1, 0)],
        },
        Reaction {
            answers: &[],
            changes: &[(1, "ura")],
            told: &[("more", 1, 6), ("resume", 1, 0)],
        },
        Reaction {
            answers: &[],
            changes: &[(1, "er")],
            told: &[("end", 1, 7)],
        },
    ],
    // Effects go by kind and then by id, whatever the order of the changes; a start that does not run after
    // gets no id.
    &[
        STARTED,
        Reaction {
            answers: &[],
            changes: &[(0, "a"), (0, ""), (1, "ra"), (0, "a")],
            told: &[("start", 2, 4), ("start", 3, 4)],
        },
        Reaction {
            answers: &[(1, 5, true), (3, 6, true)],
            changes: &[(3, "e"), (2, ""), (1, "era")],
            told: &[("end", 1, 5), ("end", 3, 6), ("kill", 2, 0)],
        },
    ],
];

fn answers_of(alloc: Global, tried: &[(u64, i64, bool)]) -> Result<Answers, NoMemory> {
    let mut answers = Answers::new(alloc);
    for (id, number, last) in tried {
        let value = if *number == NO_NUMBER {
            Value::Unit
        } else {
            Value::Int(*number)
        };
        answers.push(Answer {
            id: *id,
            value,
            last: *last,
        })?;
    }
    Ok(answers)
}

/// The arguments of a start, which has the id 0.
fn args_of(alloc: Global, id: u64) -> Result<Option<Values>, NoMemory> {
    if id > 0 {
        return Ok(None);
    }
    let mut args = Vec::new(alloc);
    args.push(Value::Int(4))?;
    Ok(Some(Values::from_vec(args)))
}

fn change_of(alloc: Global, id: u64, happened: &str) -> Result<Change, NoMemory> {
    let letters = happened.as_bytes();
    Ok(Change {
        id,
        body: 0,
        started: args_of(alloc, id)?,
        used: letters.contains(&b'u'),
        ended: letters.contains(&b'e'),
        held: letters.contains(&b'h'),
        resumed: letters.contains(&b'r'),
        runs_after: letters.contains(&b'a'),
        kill: None,
        suspend: None,
        resume: None,
    })
}

fn changes_of(alloc: Global, happened: &[(u64, &str)]) -> Result<Vec<Change>, NoMemory> {
    let mut changes = Vec::new(alloc);
    for (id, what) in happened {
        changes.push(change_of(alloc, *id, what)?)?;
    }
    Ok(changes)
}

fn number_of(value: &Value) -> i64 {
    match value {
        Value::Int(number) => *number,
        _ => 0,
    }
}

fn shown(effect: &Effect) -> (&'static str, u64, i64) {
    match effect {
        Effect::Dropped(id, Reason::Stale) => ("stale", *id, 0),
        Effect::Dropped(id, Reason::Unknown) => ("unknown", *id, 0),
        Effect::Dropped(id, Reason::Repeated) => ("repeated", *id, 0),
        Effect::Dropped(id, Reason::Mistyped) => ("mistyped", *id, 0),
        Effect::More(id, value) => ("more", *id, number_of(value)),
        Effect::Ended(id, value) => ("end", *id, number_of(value)),
        Effect::Killed(id, _) => ("kill", *id, 0),
        Effect::Suspended(id, _) => ("suspend", *id, 0),
        Effect::Resumed(id, _) => ("resume", *id, 0),
        Effect::Started(id, _, args) => (
            "start",
            *id,
            args.as_slice().first().map_or(0, number_of),
        ),
    }
}

/// Whether these effects are told, in this order.
fn are_told(told: &[Effect], want: &[(&'static str, u64, i64)]) -> bool {
    if told.len() != want.len() {
        return false;
    }
    for (effect, expected) in told.iter().zip(want) {
        if shown(effect) != *expected {
            return false;
        }
    }
    true
}

fn enter(
    alloc: Global,
    instances: &mut Instances,
    parts: bool,
    tried: &[(u64, i64, bool)],
    told: &mut Vec<Effect>,
) -> Result<(), NoMemory> {
    let answers = answers_of(alloc, tried)?;
    instances.enter(alloc, &[Kind::Int], parts, &answers, told)
}

/// Whether there were ids for the changes, and they were made.
fn advance(
    alloc: Global,
    instances: &mut Instances,
    happened: &[(u64, &str)],
    told: &mut Vec<Effect>,
) -> Result<bool, NoMemory> {
    let changes = changes_of(alloc, happened)?;
    if !instances.has_ids(&changes) {
        return Ok(false);
    }
    instances.advance(alloc, &changes, told)?;
    Ok(true)
}

/// Whether the reaction tells what it is to tell.
fn tells(alloc: Global, instances: &mut Instances, reaction: &Reaction) -> Result<bool, NoMemory> {
    let mut told = Vec::new(alloc);
    enter(alloc, instances, true, reaction.answers, &mut told)?;
    let advanced = advance(alloc, instances, reaction.changes, &mut told)?;
    Ok(advanced && are_told(&told, reaction.told))
}

/// Whether each reaction of the run does so.
fn run_tells(alloc: Global, run: &[Reaction]) -> Result<bool, NoMemory> {
    let mut instances = Instances::new(alloc, 0);
    for reaction in run {
        if !tells(alloc, &mut instances, reaction)? {
            return Ok(false);
        }
    }
    Ok(true)
}

#[test]
fn runs(rt: HostRuntime) -> Result<(), Fail> {
    for run in RUNS {
        assert!(rt; run_tells(rt.alloc(), run)?);
    }
    Ok(())
}

/// How many answers wait for the first instance.
fn waiting(instances: &Instances) -> Option<usize> {
    match instances.at(0) {
        Some(instance) => Some(instance.queue.len()),
        None => None,
    }
}

/// Whether a copy has no answer of those that enter later, of which the parts are not taken.
fn copy_stays(
    alloc: Global,
    instances: &mut Instances,
    told: &mut Vec<Effect>,
) -> Result<bool, NoMemory> {
    let copy = instances.copy(alloc)?;
    enter(
        alloc,
        instances,
        false,
        &[(7, 5, false), (7, 6, true)],
        told,
    )?;
    Ok(waiting(&copy) == Some(0) && copy.at(1).is_none())
}

// Partial answers are dropped where they are not taken, and a copy does not share its queues.
#[test]
fn partial_answers(rt: HostRuntime) -> Result<(), Fail> {
    let alloc = rt.alloc();
    let mut instances = Instances::new(alloc, 6);
    let mut told = Vec::new(alloc);
    assert!(rt; advance(alloc, &mut instances, &[(0, "a")], &mut told)?);
    assert!(rt; copy_stays(alloc, &mut instances, &mut told)?);
    assert!(rt; are_told(&told, &[("start", 7, 4), ("mistyped", 7, 0)]));
    assert!(rt; instances.last() == 7 && waiting(&instances) == Some(1));
    Ok(())
}
