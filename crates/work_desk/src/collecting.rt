//! What a giver does until something comes of its work.

ghost use Rattle.std.specs.Prelude.{◌≡◌};
ghost use Rattle.work_desk.specs.Outcomes.{IsCollected};

use crate::desk::Desk;
use crate::outcomes::Collected;
use crate::seats::Ticket;
use crate::steps::Deed;

/// How often one looks at a time.
const LOOKS: u32 = 1_000_000;

/// How often one looks so often. That is for longer than any work takes.
const TURNS: u64 = 1 << 40;

impl<T: Drop, K, D: Deed<T, K>> Desk<T, K, D> {
    /// `collect`, where a worker that has the work in hand is waited for. The ticket comes back only
    /// after so many looks that no work takes as long.
    pub fn collect_at_last(&self, ticket: Ticket<T, K>) -> Collected<T, K>
        requires here { ticket.desk ≡ self.now.desk }
        ensures { IsCollected D.done ticket result }
    {
        let mut ticket = ticket;
        for _ in 0..TURNS {
            match self.collect(ticket) {
                Collected::Away(back) => {
                    ticket = back;
                    self.look_for_end(LOOKS);
                }
                come => return come,
            }
        }
        Collected::Away(ticket)
    }
}
