// The sum that every account keeps (the user's third demand, docs/DEMANDS.md): "advances of closed years plus balances, less flat-rate
// parts, plus liquidations, plus lapsed credit, plus standing credit".
#![tactic(auto)]

ghost use Rattle.std.specs.Prelude.{◌≡◌, true, false, pos};
ghost use Rattle.account_conserved.specs.Conservation.{conserved_in, Small};

use account_steps::Balance;
use statements::Sums;

/// In ticks, signed: it may be negative in a book that was not made by the calls.
pub fn conserved_sum(sums: Sums) -> Balance
    requires { Small sums }
    ensures { result.0 ≡ conserved_in sums }
{
    // `as`: std has no `From` of 64 bits to signed ones, and `Small` bounds each of these.
    let paid = sums.closed_advances.0 as i64 + sums.balance.0;
    let kept = paid - sums.flat_rate.0 as i64;
    let standing = kept + sums.liquidation.0 as i64 + sums.lapsed.0 as i64 + sums.credit.0 as i64;
    Balance(standing)
}

/// Whether it is the value of the injected energy.
pub fn is_conserved(sums: Sums) -> bool
    requires { Small sums }
    ensures { (result ≡ true → conserved_in sums ≡ pos sums.value.0) × (result ≡ false → conserved_in sums ≡ pos sums.value.0 → ⊥) }
{
    // `as`: as above.
    conserved_sum(sums).0 == sums.value.0 as i64
}
