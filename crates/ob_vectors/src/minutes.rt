//! Three passes of one machine on three threads.
ghost use Rattle.std.specs.Prelude.{◌≡◌, IfOk};

use crate::turns::at;
use ob_times::Moment;
use ob_turn::{Answer, Caller, Desk, Job, Machine, Pass};
use std::alloc::{AllocError, Global};
use std::marker::Model;
use std::sync::Wait;
use std::thread::Threads;

#[derive(Clone, Copy, PartialEq, Eq)]
struct Line {
    by: u64,
    number: u64,
}

/// All that was said, in order. A reply is the line's place.
#[derive(Drop)]
struct Minutes {
    lines: Vec<Line>,
}

impl Model for Minutes {
    ghost use Rattle.std.specs.Prelude.{List};
    ghost use Rattle.ob_vectors.specs.declared.minutes.Line.{Line};

    ghost Value = { List Line };

    ghost view = { λ m. m.lines.items };
}

impl Machine for Minutes {
    ghost use Rattle.std.specs.Prelude.{◌++◌, ◌∷◌, [], length};

    type Request = Line;

    type Reply = usize;

    ghost act = { λ lines line moment. (lines ++ line ∷ [], length lines) };

    fn step(&mut self, request: &Line, _moment: Moment) -> Result<usize, AllocError> {
        let place = self.lines.len();
        self.lines.push(*request)?;
        Ok(place)
    }
}

type Jobs = Vec<Job<Line, usize>>;

fn jobs_of(alloc: Global, by: u64, count: u64) -> Result<Jobs, AllocError> {
    let mut jobs = Vec::new(alloc);
    for number in 0..count {
        jobs.push(Job {
            request: Line { by, number },
            moment: at(number),
            answer: None,
        })?;
    }
    Ok(jobs)
}

// Whether each answer is the place at which the request stands, and the places rise.
fn stand_in_order(lines: &[Line], jobs: &[Job<Line, usize>]) -> bool {
    let mut next = 0;
    for job in jobs {
        let Some(Answer::Done(place)) = &job.answer else {
            return false;
        };
        let Some(line) = lines.get(*place) else {
            return false;
        };
        if *place < next || *line != job.request {
            return false;
        }
        next = place.saturating_add(1);
    }
    true
}

fn caller(
    alloc: Global,
    pass: Pass<Minutes>,
    by: u64,
    count: u64,
) -> Result<Caller<Minutes>, AllocError>
    ensures { IfOk result (λ w. w.pass ≡ pass) }
{
    let jobs = jobs_of(alloc, by, count)?;
    Ok(Caller { pass, jobs })
}

// Tells how many jobs there were, and whether they stand in order.
fn tell_jobs(
    lines: &[Line],
    jobs: &[Job<Line, usize>],
    told: &mut String,
) -> Result<(), AllocError> {
    let count = jobs.len();
    let order = if stand_in_order(lines, jobs) {
        "in order"
    } else {
        "otherwise"
    };
    write!(told, ", {count} {order}")
}

/// Tells how many lines there are of three threads with so many requests each, and whether each request stands at the place
/// that was told, in the order in which its thread made them.
///
/// `AllocError` only for want of memory.
pub(crate) fn tell_minutes<R: Threads + Wait + Sync + AllocGlobal>(
    rt: &R,
    count: u64,
    told: &mut String,
) -> Result<(), AllocError> {
    let minutes = Minutes {
        lines: Vec::new(rt.alloc()),
    };
    let Ok((desk, mut pass)) = Desk::new(rt.alloc(), minutes) else {
        return Err(AllocError);
    };
    let mut callers = Vec::with_capacity(rt.alloc(), 3)?;
    let one = pass.split(&desk, 1);
    let two = pass.split(&desk, 1);
    let three = pass.split(&desk, 1);
    callers.push_reserved(caller(rt.alloc(), one, 1, count)?);
    callers.push_reserved(caller(rt.alloc(), two, 2, count)?);
    callers.push_reserved(caller(rt.alloc(), three, 3, count)?);
    desk.run_callers(rt, callers.as_mut_slice());
    let (Some(three), Some(two), Some(one)) = (callers.pop(), callers.pop(), callers.pop()) else {
        return told.push_str("no callers");
    };
    let Caller {
        pass: one,
        jobs: first,
    } = one;
    let Caller {
        pass: two,
        jobs: second,
    } = two;
    let Caller {
        pass: three,
        jobs: third,
    } = three;
    pass.join(&desk, one);
    pass.join(&desk, two);
    pass.join(&desk, three);
    if pass.shares() != 4_294_967_296 {
        return told.push_str("no shares");
    }
    let Minutes { lines } = desk.close(pass);
    let count = lines.len();
    write!(told, "{count} lines")?;
    for jobs in [&first, &second, &third] {
        tell_jobs(lines.as_slice(), jobs.as_slice(), told)?;
    }
    Ok(())
}
