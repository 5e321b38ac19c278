// A user's statement: a walk over its chain that sums the entries (document 01, "Election and advances").
#![tactic(auto)]

ghost use Rattle.std.specs.Prelude.{◌≡◌};
ghost use Rattle.chains.specs.Statements.{statement_at};
ghost use Rattle.statements.specs.InnerWalk.{sums_of, sums_before};

use account_steps::{Account, Balance, ClosingSums};
use book_records::AdvanceRecord;
use book_view::User;
use chain_reader::{Entries, Entry};
use units::Ticks;

/// "Statement: open year, credit, and the sums over the chain of C, O, F, contribution, liquidation, lapsed, balance, all
/// advances, advances of closed years."
#[derive(Clone, Copy, Debug, PartialEq, Eq)]
pub struct Sums {
    pub open_year: u64,
    pub credit: Ticks,
    pub value: Ticks,
    pub cost: Ticks,
    pub flat_rate: Ticks,
    pub contribution: Ticks,
    pub liquidation: Ticks,
    pub lapsed: Ticks,
    pub balance: Balance,
    pub advances: Ticks,
    pub closed_advances: Ticks,
}

impl Sums {
    ghost use Rattle.statements.specs.InnerWalk.{closing_added, advance_added, entry_added, ClosingRoom, AdvanceRoom, EntryRoom};

    #[tactic(auto, unfolding(crate::specs::InnerWalk::entry_added))]
    fn with(self, entry: Entry) -> Sums
        requires { EntryRoom entry self }
        ensures { result ≡ entry_added entry self }
    {
        match entry {
            Entry::Closing(closing) => self.with_closing(closing.sums),
            Entry::Advance(advance) => self.with_advance(advance),
        }
    }

    #[tactic(auto, unfolding(crate::specs::InnerWalk::closing_added))]
    fn with_closing(mut self, closing: ClosingSums) -> Sums
        requires { ClosingRoom closing self }
        ensures { result ≡ closing_added closing self }
    {
        self.value += closing.value;
        self.cost += closing.cost;
        self.flat_rate += closing.flat_rate;
        self.contribution += closing.contribution;
        self.liquidation += closing.liquidation;
        self.lapsed += closing.lapsed;
        self.balance += closing.balance;
        self
    }

    #[tactic(auto, unfolding(crate::specs::InnerWalk::advance_added))]
    fn with_advance(mut self, advance: AdvanceRecord) -> Sums
        requires { AdvanceRoom advance self }
        ensures { result ≡ advance_added advance self }
    {
        self.advances += advance.ticks;
        if u64::from(advance.year) < self.open_year {
            self.closed_advances += advance.ticks;
        }
        self
    }
}

// The sums before the first entry.
#[tactic(auto, unfolding(crate::specs::InnerWalk::sums_before))]
fn sums_before(account: Account) -> Sums
    ensures { result ≡ sums_before account }
{
    Sums {
        open_year: u64::from(account.open_year),
        credit: account.credit,
        value: Ticks(0),
        cost: Ticks(0),
        flat_rate: Ticks(0),
        contribution: Ticks(0),
        liquidation: Ticks(0),
        lapsed: Ticks(0),
        balance: Balance(0),
        advances: Ticks(0),
        closed_advances: Ticks(0),
    }
}

/// The statement of a user.
pub fn statement_of(user: User<'_>) -> Sums
    ensures { result ≡ sums_of (statement_at user.entry.book.bytes.now user.entry.index.0) }
{
    let mut sums = sums_before(user.account());
    for entry in Entries::of(user) {
        sums = sums.with(entry);
    }
    sums
}
