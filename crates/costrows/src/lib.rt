// One letter leads from the row of a prefix in the cost table to the row of another, or back: document 02, Paper 10.
#![tactic(auto)]

ghost use Rattle.costrows.specs.Rows.{LedBack, LedOn, Rows};

use profile::Profile;

// A letter, which costs `more`, and the rows that it leads from and to.
#[derive(Clone, Copy)]
pub struct Arrow {
    pub from: usize,
    pub to: usize,
    pub letter: usize,
    pub more: usize,
}

// The letter leads on: from the states of its first row to those of its second.
pub fn lead_on(costs: &mut [u32], profile: &Profile, arrow: Arrow)
    requires { Rows costs.old arrow.from arrow.to profile.now.shape.k profile.now.shape.s profile.now.moves.now arrow.letter }
    ensures { LedOn costs.old costs.new arrow.from arrow.to profile.now.shape.k profile.now.shape.s profile.now.moves.now arrow.letter arrow.more profile.now.shape.s }
{
    let s = profile.shape.s;
    for q in 0..s {
        let cost = costs[arrow.from + q];
        let states = steps::leads_from(profile.moves, profile.shape.k, q, arrow.letter);
        let v = costcells::plus(cost, arrow.more);
        costwrites::lower_all(costs, arrow.to, s, states, v);
    }
}

// Kept beside `lead_on`: one lowers many cells by one, the other one cell by many.
// The letter leads back: from the states of its second row to those of its first.
pub fn lead_back(costs: &mut [u32], profile: &Profile, arrow: Arrow)
    requires { Rows costs.old arrow.from arrow.to profile.now.shape.k profile.now.shape.s profile.now.moves.now arrow.letter }
    ensures { LedBack costs.old costs.new arrow.from arrow.to profile.now.shape.k profile.now.shape.s profile.now.moves.now arrow.letter arrow.more profile.now.shape.s }
{
    let s = profile.shape.s;
    for q in 0..s {
        let states = steps::leads_from(profile.moves, profile.shape.k, q, arrow.letter);
        let least = costcells::least_in(costs, arrow.to, s, states);
        let v = costcells::plus(least, arrow.more);
        costwrites::lower(costs, arrow.from + q, v);
    }
}
