// Events of one invocation, each of which has to come to what it is meant to.
use crate::fault::Fault;
use crate::schedule::timed::Timed;
use bytes::{ByteStr, Bytes};
use journal_store::{NewInvocation, NotificationResult, StateMode};
use scheduler::{Event, Reply, RunOutcome, Scheduler};
use sequence::Sequence;
use sqlite::Alter;
use std::alloc::Global;
use std::mem::replace;

/// An event of an invocation, and what is looked at of what it comes to.
#[derive(Clone, Copy)]
pub enum Step {
    Invoke,
    Begin,
    /// All of the input is handed out that is left.
    Feed,
    /// So many turns. What they come to is seen by the frames that are moved.
    Turn(u32),
    /// All of the output is moved, which is so many frames.
    Move(usize),
    Stop,
    /// No more of the input is handed out.
    Close,
    /// The sleeps that are due at this moment are over: so many.
    Tick(u64, u64),
    /// A call is answered, for its completion.
    Result(u32),
}

/// An invocation, its attempt that was begun last, and how many events there were, of those before it too.
#[derive(Drop)]
pub struct Place {
    pub alloc: Global,
    pub id: ByteStr,
    pub object: ByteStr,
    pub state: StateMode,
    pub handler: Timed,
    pub attempt: u32,
    pub events: u32,
}

impl Place {
    /// The place of no invocation.
    pub fn new(alloc: Global) -> Place {
        Place {
            alloc,
            id: ByteStr::new(),
            object: ByteStr::new(),
            state: StateMode::Whole,
            handler: Timed::Sleeps,
            attempt: 0,
            events: 0,
        }
    }

    /// From here on it is that of the invocation of this number, of which nothing has happened, of an object of its own.
    pub fn go_on(&mut self, which: u32, handler: Timed) -> Result<(), Fault> {
        self.go_on_with(which, handler)?;
        drop(replace(&mut self.object, self.id.clone()?));
        Ok(())
    }

    /// The same, of the object that it has.
    pub fn go_on_with(&mut self, which: u32, handler: Timed) -> Result<(), Fault> {
        let name = format!(in self.alloc; "inv-{which}")?;
        let id = ByteStr::copy_from_str(self.alloc, name.as_str());
        drop(name);
        drop(replace(&mut self.id, id?));
        self.handler = handler;
        self.attempt = 0;
        Ok(())
    }

    /// The invocation with this id.
    fn new_invocation(&self, id: ByteStr) -> Result<NewInvocation, Fault> {
        match self.object.clone() {
            Ok(object) => Ok(NewInvocation {
                id,
                object,
                input: Bytes::new(),
                headers: Sequence::new(self.alloc),
                version: 7,
                seed: 42,
                state: self.state,
            }),
            Err(_error) => {
                drop(id);
                Err(Fault::Memory)
            }
        }
    }

    /// An event of this invocation, of which there is one already.
    fn event_of(&self, step: Step, invocation: ByteStr) -> Event<Timed> {
        let (attempt, count) = (self.attempt, usize::MAX);
        match step {
            Step::Begin => Event::Begin {
                invocation,
                handler: self.handler,
                now: 0,
            },
            Step::Feed => Event::Feed {
                invocation,
                attempt,
                count,
            },
            Step::Turn(_) => Event::Turn {
                invocation,
                attempt,
                outcome: RunOutcome::done(Bytes::new()),
            },
            Step::Move(_) => Event::Move {
                invocation,
                attempt,
                count,
            },
            Step::Result(completion) => Event::Result {
                invocation,
                completion,
                value: NotificationResult::Value(Bytes::from_static(b"ok")),
            },
            Step::Close => Event::Close {
                invocation,
                attempt,
            },
            _ => Event::Stop {
                invocation,
                attempt,
            },
        }
    }

    fn event(&self, step: Step) -> Result<Event<Timed>, Fault> {
        match step {
            Step::Invoke => Ok(Event::Invoke(self.new_invocation(self.id.clone()?)?)),
            Step::Tick(now, _) => Ok(Event::Tick(now)),
            _ => Ok(self.event_of(step, self.id.clone()?)),
        }
    }
}

/// What events are applied to: a scheduler, whatever database its store has. Seen so, a function over it says nothing of either.
pub trait Events {
    fn apply_event(&mut self, event: Event<Timed>) -> Reply;

    /// How many invocations are due.
    fn count_due(&mut self) -> Result<usize, Fault>;
}

impl<S: Alter + Drop> Events for Scheduler<Timed, S> {
    fn apply_event(&mut self, event: Event<Timed>) -> Reply {
        self.apply(event)
    }

    fn count_due(&mut self) -> Result<usize, Fault> {
        let ids = self.due()?;
        Ok(ids.len())
    }
}

fn is_meant(step: Step, attempt: u32, reply: &Reply) -> bool {
    match reply {
        Reply::Refused(_) => false,
        Reply::Begun(number) => *number == attempt,
        Reply::Fed { refusal, .. } => refusal.is_none(),
        Reply::Moved {
            frames,
            refusal,
            ..
        } => matches!(step, Step::Move(wanted) if wanted == *frames) && refusal.is_none(),
        Reply::Ticked(count) => matches!(step, Step::Tick(_, wanted) if wanted == *count),
        _ => true,
    }
}

fn apply<E: Events>(scheduler: &mut E, place: &mut Place, step: Step) -> Result<(), Fault> {
    let event = place.event(step)?;
    if let Step::Begin = step {
        place.attempt = place.attempt.wrapping_add(1);
    }
    place.events = place.events.wrapping_add(1);
    let reply = scheduler.apply_event(event);
    let is_meant = is_meant(step, place.attempt, &reply);
    drop(reply);
    if is_meant {
        Ok(())
    } else {
        Err(Fault::OtherReply)
    }
}

/// One step behind the other.
pub fn apply_each<E: Events>(
    scheduler: &mut E,
    place: &mut Place,
    steps: &[Step],
) -> Result<(), Fault> {
    for step in steps {
        let events = match *step {
            Step::Turn(count) => count,
            _ => 1,
        };
        for _ in 0..events {
            apply(scheduler, place, *step)?;
        }
    }
    Ok(())
}

/// These steps, so many times.
pub fn repeat<E: Events>(
    scheduler: &mut E,
    place: &mut Place,
    steps: &[Step],
    times: u32,
) -> Result<(), Fault> {
    for _ in 0..times {
        apply_each(scheduler, place, steps)?;
    }
    Ok(())
}
