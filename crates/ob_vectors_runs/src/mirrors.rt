//! What a mirror holds of a watch: replies that it is given one after the other, and what it holds then.
use ob_client::{Mirror, MirrorFault};
use ob_documents::read;
use ob_encoding::encode;
use ob_object::Obj;
use ob_rows::{Row, Table, push_bytes, push_number, split_word};
use ob_values::Text;
use std::alloc::{AllocError, Global};

/// Rows over one mirror. `new` begins anew; `refresh REPLY`, `add REPLY` and `changes REPLY` give it a reply and tell `taken`
/// or the fault; `remove HREF` and `lost` tell it so, and then whether a reply was lost; `held` tells the objects that it holds,
/// `get HREF` the one under an href, `events HREF` the events of a feed, each with ` / ` behind it; `missed HREF` how many events
/// of a feed were missed.
#[derive(Drop)]
pub(crate) struct Mirrors {
    mirror: Mirror,
}

// The name of a fault; an error for want of memory.
fn fault_name(fault: MirrorFault) -> Result<&'static str, AllocError> {
    match fault {
        MirrorFault::Shape => Ok("Shape"),
        MirrorFault::Stale => Ok("Stale"),
        MirrorFault::Memory => Err(AllocError),
    }
}

// What became of a reply.
fn outcome(taken: Result<(), MirrorFault>) -> Result<&'static str, AllocError> {
    match taken {
        Ok(()) => Ok("taken"),
        Err(fault) => fault_name(fault),
    }
}

// The object that a text is, if it is a document.
fn reply_of(alloc: Global, said: &str) -> Option<Obj> {
    match read(alloc, said.as_bytes()) {
        Ok(document) => {
            let (_, root) = document.into_parts();
            Some(root)
        }
        Err(_) => None,
    }
}

// Tells an object, and ` / ` behind it.
fn tell_object(alloc: Global, object: &Obj, told: &mut String) -> Result<(), AllocError> {
    let text = encode(alloc, None, object)?;
    push_bytes(told, text.as_slice())?;
    told.push_str(" / ")
}

impl Mirrors {
    /// Nothing is held.
    pub(crate) fn new(alloc: Global) -> Mirrors {
        Mirrors {
            mirror: Mirror::new(alloc),
        }
    }

    fn take(&mut self, alloc: Global, call: &str, said: &str) -> Result<&'static str, AllocError> {
        let Some(reply) = reply_of(alloc, said) else {
            return Ok("no document");
        };
        self.give(call, reply)
    }

    /// What becomes of the reply to `refresh`, `add` or `changes` that it is given. An error for want of memory.
    pub(crate) fn give(&mut self, call: &str, reply: Obj) -> Result<&'static str, AllocError> {
        outcome(match call {
            "refresh" => self.mirror.on_refresh(reply),
            "add" => self.mirror.on_add(reply),
            _ => self.mirror.on_changes(reply),
        })
    }

    fn tell_held(&self, alloc: Global, told: &mut String) -> Result<(), AllocError> {
        for place in 0..self.mirror.len() {
            if let Some(object) = self.mirror.at(place) {
                tell_object(alloc, object, told)?;
            }
        }
        Ok(())
    }

    fn tell_one(&self, alloc: Global, href: &str, told: &mut String) -> Result<(), AllocError> {
        match self.mirror.get(href) {
            Some(object) => tell_object(alloc, object, told),
            None => told.push_str("none"),
        }
    }

    fn tell_events(&self, alloc: Global, href: &str, told: &mut String) -> Result<(), AllocError> {
        for event in self.mirror.events(href) {
            tell_object(alloc, event, told)?;
        }
        Ok(())
    }

    fn remove(&mut self, alloc: Global, href: &str) -> Result<(), AllocError> {
        if let Ok(text) = Text::from_utf8(alloc, href.as_bytes()) {
            self.mirror.on_remove(&[text]);
        }
        Ok(())
    }

    // Whether a reply was lost since the last refresh.
    fn tell_state(&self, told: &mut String) -> Result<(), AllocError> {
        told.push_str(if self.mirror.is_stale() {
            "stale"
        } else {
            "not stale"
        })
    }
}

impl Table for Mirrors {
    fn answer(&mut self, alloc: Global, asked: Row, told: &mut String) -> Result<(), AllocError> {
        let (call, said) = split_word(asked.text);
        match call {
            "new" => {
                self.mirror = Mirror::new(alloc);
                self.tell_state(told)
            }
            "lost" => {
                self.mirror.lost();
                self.tell_state(told)
            }
            "remove" => {
                self.remove(alloc, said)?;
                self.tell_state(told)
            }
            "held" => self.tell_held(alloc, told),
            "get" => self.tell_one(alloc, said, told),
            "events" => self.tell_events(alloc, said, told),
            "missed" => push_number(told, self.mirror.missed(said)),
            _ => told.push_str(self.take(alloc, call, said)?),
        }
    }
}
