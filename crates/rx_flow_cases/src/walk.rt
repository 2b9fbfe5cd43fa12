// Control, as it goes through a body.
use rx_clause_tree::{ClauseKind, Simple};
use rx_flow::{Flat, Found};
use rx_frames::{Loop, LoopState};
use rx_tree::{Name, Text};
use sqlite_items::Items;
use std::alloc::{AllocError, Global};

// The most steps of a walk.
const MOST_STEPS: u32 = 1000;

// How a walk ends.
#[derive(Clone, Copy)]
enum Ended {
    AtEnd,
    NoWhen,
    NoLabel,
    NoChoice,
}

impl Ended {
    fn word(self) -> &'static str {
        match self {
            Ended::AtEnd => "end",
            Ended::NoWhen => "no when",
            Ended::NoLabel => "no label",
            Ended::NoChoice => "no choice",
        }
    }
}

/// What is chosen where a walk can go on in several ways.
#[derive(Clone, Copy)]
enum Choices<'a> {
    /// The digits, one after the other.
    Digits(&'a [u8]),
    /// This number each time.
    Always(u64),
}

/// Where a walk is: its place, the loops that it is in, the innermost last, and the choices that are left.
struct Walk<'a> {
    place: u32,
    loops: Vec<Loop>,
    choices: Choices<'a>,
}

impl<'a> Drop for Walk<'a> {
    fn drop(self) {
        let Walk {
            place: _,
            loops: _,
            choices: _,
        } = self;
    }
}

impl<'a> Walk<'a> {
    // A walk that begins.
    fn new(alloc: Global, choices: Choices<'a>) -> Walk<'a> {
        Walk {
            place: 0,
            loops: Vec::new(alloc),
            choices,
        }
    }

    // The next choice.
    fn choose(&mut self) -> Option<u64> {
        match self.choices {
            Choices::Digits([first, others @ ..]) => {
                self.choices = Choices::Digits(others);
                Some(u64::from(first.saturating_sub(b'0')))
            }
            Choices::Digits([]) => None,
            Choices::Always(choice) => Some(choice),
        }
    }

    // A turn of the innermost loop, or its end.
    fn turn(&mut self, flat: &Flat) -> Result<Option<Ended>, AllocError> {
        let Some(mut innermost) = self.loops.pop() else {
            return Ok(Some(Ended::AtEnd));
        };
        let Some(turn) = flat.turn_at(innermost.turn) else {
            return Ok(Some(Ended::AtEnd));
        };
        match innermost.state.left {
            Some(left) if left > 0 => {
                innermost.state.left = Some(left - 1);
                self.loops.push(innermost)?;
                self.place = turn.body;
            }
            _ => self.place = turn.end,
        }
        Ok(None)
    }

    // A loop begins, whose turns the next choice counts.
    fn enter(&mut self, alloc: Global, found: Found) -> Result<Option<Ended>, AllocError> {
        let Some(turns) = self.choose() else {
            return Ok(Some(Ended::NoChoice));
        };
        self.loops.push(Loop {
            turn: found.next,
            state: LoopState {
                begun: false,
                left: Some(turns),
                to: None,
                by: 1,
                items: Items::new(alloc),
            },
        })?;
        self.place = found.next;
        Ok(None)
    }

    fn test(&mut self, found: Found) -> Option<Ended> {
        match self.choose() {
            Some(0) => self.place = found.otherwise,
            Some(_) => self.place = found.next,
            None => return Some(Ended::NoChoice),
        }
        None
    }

    // LEAVE, or ITERATE.
    fn go_on(&mut self, flat: &Flat, wanted: &Option<Name>, again: bool) -> Option<Ended> {
        let Some(found) = flat.find_loop(self.loops.as_slice(), wanted) else {
            return Some(Ended::AtEnd);
        };
        if again {
            self.loops.truncate(found.around + 1);
            self.place = found.turn;
        } else {
            self.loops.truncate(found.around);
            self.place = found.end;
        }
        None
    }

    fn signal(&mut self, flat: &Flat, label: &Text) -> Option<Ended> {
        let Some(place) = flat.label_place(label.bytes()) else {
            return Some(Ended::NoLabel);
        };
        self.loops.truncate(0);
        self.place = place;
        None
    }
}

// One step of a walk, which tells the line of a clause that does more than moving control.
fn step(
    alloc: Global,
    flat: &Flat,
    walk: &mut Walk,
    lines: &mut Vec<u32>,
) -> Result<Option<Ended>, AllocError> {
    let Some(found) = flat.find(walk.place) else {
        return walk.turn(flat);
    };
    let Some(clause) = flat.clause(found.number) else {
        return Ok(Some(Ended::AtEnd));
    };
    match &clause.kind {
        ClauseKind::Simple(Simple::Leave(name)) => Ok(walk.go_on(flat, name, false)),
        ClauseKind::Simple(Simple::Iterate(name)) => Ok(walk.go_on(flat, name, true)),
        ClauseKind::Simple(Simple::Signal(label)) => Ok(walk.signal(flat, label)),
        ClauseKind::Simple(_) => {
            lines.push(clause.line)?;
            walk.place = found.next;
            Ok(None)
        }
        ClauseKind::If(_, _, _) => Ok(walk.test(found)),
        ClauseKind::Select(_, None) => Ok(Some(Ended::NoWhen)),
        ClauseKind::Select(_, Some(_)) | ClauseKind::Group(_) => {
            walk.place = found.next;
            Ok(None)
        }
        ClauseKind::Loop(_, _, _) => walk.enter(alloc, found),
    }
}

/// The lines of the clauses that are done, and how the walk ends.
pub fn tell_walk(alloc: Global, flat: &Flat, choices: &[u8]) -> Result<String, AllocError> {
    let mut walk = Walk::new(alloc, Choices::Digits(choices));
    let mut lines = Vec::new(alloc);
    for _ in 0..MOST_STEPS {
        if let Some(ended) = step(alloc, flat, &mut walk, &mut lines)? {
            let mut told = String::new(alloc);
            for line in lines.as_slice() {
                told.push_str(format!(in alloc; "{line} ")?.as_str())?;
            }
            told.push_str(ended.word())?;
            return Ok(told);
        }
    }
    String::from_str(alloc, "too many steps")
}

/// How many clauses are done in so many steps at most, where each test holds and each loop has 4,294,967,295 turns.
pub fn tell_steps(alloc: Global, flat: &Flat, most: u32) -> Result<String, AllocError> {
    let mut walk = Walk::new(alloc, Choices::Always(u64::from(u32::MAX)));
    let mut lines = Vec::new(alloc);
    for _ in 0..most {
        if let Some(ended) = step(alloc, flat, &mut walk, &mut lines)? {
            return format!(in alloc; "{} clauses, {}", lines.len(), ended.word());
        }
    }
    format!(in alloc; "{} clauses, and more", lines.len())
}
