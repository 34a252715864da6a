// What a unit asks of the line, of INT and of its fans: written once, for every kind. Sources and fans are numbers, as in the trait.
ghost use Rattle.std.specs.Prelude.{◌≡◌, ℕ, Bool, true, T, IfOk, Decides};
ghost use Rattle.unit.specs.Calls.{Computes};
ghost use Rattle.unit.specs.Levels.{some, causes, demand_in, pulls_line, int_of, pin_of, demanded, asked, level_answer, Pulls, Offer, Greatest};
ghost use Rattle.unit.specs.Order.{Steady};

use crate::Unit;
use fault::{Cause, Fault};

// Whether some source has a standing cause that acts so.
fn some_cause<U: Unit, F: Fn(usize) -> bool>(unit: &U, acts: F) -> bool
    requires { F.IsAlwaysCallable acts }
    ensures { (does : U.kind.Page → ℕ → Bool) → Computes (F.post acts) (does (U.state unit.now).page) → result ≡ some U.kind.sources (causes U.kind does (U.state unit.now)) }
{
    (0..U::SOURCES).any(|source| unit.stands(source) && acts(source))
}

// The demand of a source on a fan while its cause stands.
fn standing_demand<U: Unit>(unit: &U, source: usize, fan: usize) -> u8
    ensures { result ≡ demand_in U.kind (U.state unit.now) fan source }
{
    if unit.stands(source) {
        unit.demand(source, fan)
    } else {
        0
    }
}

// The greatest standing demand on a fan.
pub fn greatest_demand<U: Unit>(unit: &U, fan: usize) -> u8
    ensures { result ≡ demanded U.kind (U.state unit.now) fan }
{
    (0..U::SOURCES)
        .map(|source| standing_demand(unit, source, fan))
        .max()
        .unwrap_or(0)
}

// Whether the unit pulls the line: it is forced, or has a standing cause that pulls.
pub fn pulls_line<U: Unit>(unit: &U) -> bool
    ensures value { result ≡ pulls_line U.kind (U.state unit.now) }
    ensures decides { Decides result (Pulls U.kind (U.state unit.now)) }
{
    unit.forced() || some_cause(unit, |source| unit.pulls(source))
}

// Whether INT is asserted.
pub fn asserts_int<U: Unit>(unit: &U) -> bool
    ensures { result ≡ int_of U.kind (U.state unit.now) }
{
    unit.interrupt(some_cause(unit, |source| unit.asserts(source)))
}

// The level of the INT pin.
pub fn int_pin<U: Unit>(unit: &U) -> bool
    ensures { result ≡ pin_of U.kind (U.state unit.now) }
{
    unit.pin(some_cause(unit, |source| unit.asserts(source)))
}

// All that does not come from the base: the standing demands, and the answer while the line is low.
fn asked<U: Unit>(unit: &U, low: bool, fan: usize) -> u8
    ensures { result ≡ asked U.kind (U.state unit.now) low fan }
{
    let demand = greatest_demand(unit, fan);
    let answer = if low { unit.answer(fan) } else { 0 };
    demand.max(answer)
}

// A fan's level while the line is low or not: the greatest level that it is offered.
pub fn level<U: Unit>(unit: &U, low: bool, fan: usize) -> Result<u8, Fault>
    ensures value { result ≡ level_answer U.kind (U.state unit.now) low fan }
    ensures greatest { IfOk result (λ n. Greatest (Offer U.kind (U.state unit.now) (T low) fan) n) }
{
    if fan >= U::FANS {
        return Err(Cause::NoSourceOrFan.unplaced());
    }
    Ok(unit.base(fan).max(asked(unit, low, fan)))
}

// Every kind is steady under load: proved once, from its laws.
pub fn steady<U: Unit>(_unit: &U) -> bool
    ensures { (result ≡ true) × Steady U.kind }
{
    true
}
