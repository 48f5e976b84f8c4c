//! The oracle that calls helpers.

ghost use Rattle.std.specs.Prelude.{◌≡◌, [], IfOk};

use crate::NoMemory;
use crate::helpers::Helpers;
use crate::oracle::Oracle;
use std::alloc::Global;
use std::marker::Model;

/// Calls helpers, as those of a bank, and keeps their answers, as many as it has room for.
#[derive(Drop)]
pub struct Live<'a, H: Helpers> {
    helpers: &'a H,
    room: usize,
    answers: Vec<u64>,
    refusals: u64,
}

impl<'a, H: Helpers> Model for Live<'a, H> {
    ghost use Rattle.std.specs.Prelude.{◌≤◌, vec_capacity, vec_len};
    ghost use Rattle.bpf_helpers.specs.Oracles.{Asking};

    ghost Value = { Asking };

    ghost view = { λ l. record {
      sigs = H.entries l.helpers.now;
      log = l.answers.items;
      refusals = l.refusals;
      room = l.room;
    } };

    ghost invariant = { λ l. (vec_len l.answers ≤ l.room) × (l.room ≤ vec_capacity l.answers) };
}

impl<'a, H: Helpers> Live<'a, H> {
    /// An oracle over helpers that gives `room` answers at most. `Err` only where there is no
    /// memory.
    pub fn new(alloc: Global, helpers: &'a H, room: u64) -> Result<Live<'a, H>, NoMemory>
        ensures { IfOk result (λ live. live
            ≡ record { sigs = H.entries helpers.now; log = []; refusals = 0; room = room }) }
    {
        let room = room as usize;
        let answers = Vec::with_capacity(alloc, room)?;
        Ok(Live {
            helpers,
            room,
            answers,
            refusals: 0,
        })
    }

    /// The answers given so far, the first one first.
    pub fn answers(&self) -> &[u64]
        ensures { result.now ≡ self.now.log }
    {
        &self.answers
    }

    /// The answers given, once no more are asked for.
    pub fn into_answers(self) -> Vec<u64>
        ensures { result.items ≡ self.entry.log }
    {
        let Live {
            helpers: _,
            room: _,
            answers: given,
            refusals: _,
        } = self;
        given
    }
}

impl<'a, H: Helpers> Oracle for Live<'a, H> {
    ghost use Rattle.bpf_helpers.specs.Oracles.{view_of_live};

    /// It gives no answer where there is no room for one more.
    ghost view = { view_of_live };

    fn call(&mut self, helper: u32, arguments: [u64; 5]) -> Option<u64> {
        if self.answers.len() == self.room {
            self.refusals += 1;
            return None;
        }
        let answer = self.helpers.answer(helper, arguments);
        self.answers.push_reserved(answer);
        Some(answer)
    }
}
