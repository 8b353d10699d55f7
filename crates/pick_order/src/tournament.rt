ghost use Rattle.std.specs.Prelude.{◌≡◌, ℕ, ◌+◌, ◌*◌, ◌^◌, ◌<◌, ◌≤◌, [], length, drop, IfOk, slice_set, option_map};
ghost use Rattle.pick_order.specs.Candidates.{first_of};
ghost use Rattle.pick_order.specs.Tournaments.{IsFirst, IsPlayed, IsPlayedBut, entrant};
ghost use Rattle.pick_order.specs.Preferences.{candidate_in, rescaled_candidate};

use crate::preference::{Candidate, Preference, SCALE};
use sat_lits::{Inner, NoMemory};
use std::alloc::Global;
use std::marker::Model;

/// Candidates by place, with the first of them at hand: a tree of the winners of each two (tree
/// selection: Knuth, The Art of Computer Programming, volume 3, section 5.2.3).
#[derive(Debug, Drop)]
pub struct Tournament {
    // The winners from 1 on, that of the places 2k and 2k + 1 at k, and then the entrants.
    places: Vec<Option<Candidate>>,
    // The number of entrants.
    count: usize,
}

impl Model for Tournament {
    ghost use Rattle.std.specs.Prelude.{List, Option};
    ghost use Rattle.pick_order.specs.declared.preference.Candidate.{Candidate};

    ghost Value = { List (Option Candidate) };

    ghost use Rattle.pick_order.specs.InTournament.{entrants_of, IsPlayedOut};

    ghost view = { entrants_of };

    ghost invariant = { IsPlayedOut };
}

impl Tournament {
    /// A tournament with no place. It takes no memory.
    pub fn new(alloc: Global) -> Tournament
        ensures { result ≡ [] }
    {
        Tournament {
            places: Vec::new(alloc),
            count: 0,
        }
    }

    /// A tournament of all variables that have a preference. The only error is want of memory.
    pub fn over(alloc: Global, preferences: &[Option<Preference>]) -> Result<Tournament, NoMemory>
        requires { length preferences.now ≤ 2 ^ 32 }
        ensures len { IfOk result (λ t. length t ≡ length preferences.now) }
        ensures entered { IfOk result (λ t. (v : ℕ) → entrant t v ≡ candidate_in preferences.now v) }
    {
        let count = preferences.len();
        let mut places = Vec::new(alloc);
        places.resize(2 * count, None)?;
        enter_all(&mut places, preferences);
        Ok(Tournament { places, count })
    }

    /// Puts a candidate at a place, or takes the one there away.
    pub fn enter(&mut self, at: usize, candidate: Option<Candidate>)
        requires { at < length self.old }
        ensures { self.new ≡ slice_set self.old at candidate }
    {
        let place = self.count + at;
        self.places[place] = candidate;
        play_up(&mut self.places, self.count, place);
    }

    /// The candidate at a place, if there is one.
    pub fn entrant(&self, at: usize) -> Option<Candidate>
        requires { at < length self.now }
        ensures { result ≡ entrant self.now at }
    {
        self.places[self.count + at]
    }

    /// The first of all candidates, or None where there is none.
    pub fn first(&self) -> Option<Candidate>
        ensures { IsFirst self.now result }
    {
        if self.count == 0 {
            None
        } else {
            self.places[1]
        }
    }

    /// Rescales all activities.
    pub fn rescale(&mut self)
        ensures len { length self.new ≡ length self.old }
        ensures rescaled { (k : ℕ) → entrant self.new k ≡ option_map rescaled_candidate (entrant self.old k) }
    {
        rescale_all(&mut self.places, self.count);
    }
}

/// The first of two candidates, where they are there.
fn winner(a: Option<Candidate>, b: Option<Candidate>) -> Option<Candidate>
    ensures { result ≡ first_of a b }
{
    match (a, b) {
        (Some(a), Some(b)) => Some(if a.comes_first(b) { a } else { b }),
        (Some(a), None) => Some(a),
        (None, b) => b,
    }
}

/// Puts each variable that has a preference at the place of its number, and plays all matches.
fn enter_all(places: &mut [Option<Candidate>], preferences: &[Option<Preference>])
    requires sized { length places.old ≡ length preferences.now + length preferences.now }
    requires numbers { length preferences.now ≤ 2 ^ 32 }
    ensures played { IsPlayed places.new (length preferences.now) }
    ensures entered { (v : ℕ) → v < length preferences.now → entrant places.new (length preferences.now + v) ≡ candidate_in preferences.now v }
{
    for (v, preference) in preferences.iter().enumerate() {
        places[preferences.len() + v] = match preference {
            Some(p) => Some(Candidate {
                activity: p.activity,
                var: Inner(v as u32),
            }),
            None => None,
        };
    }
    play_all(places, preferences.len());
}

/// Plays all matches anew.
fn play_all(places: &mut [Option<Candidate>], count: usize)
    requires { length places.old ≡ count + count }
    ensures played { IsPlayed places.new count }
    ensures same { (k : ℕ) → count ≤ k → entrant places.new k ≡ entrant places.old k }
{
    let mut place = count;
    'down: while place > 1 {
        place -= 1;
        places[place] = winner(places[2 * place], places[2 * place + 1]);
    }
}

/// Plays the matches anew that a place leads to, up to the first one whose winner stays.
fn play_up(places: &mut [Option<Candidate>], count: usize, from: usize)
    requires sized { length places.old ≡ count + count }
    requires from { 1 ≤ from }
    requires within { from < count + count }
    requires others { IsPlayedBut places.old count from }
    ensures played { IsPlayed places.new count }
    ensures same { drop count places.new ≡ drop count places.old }
{
    let mut place = from;
    'up: while place > 1 {
        place /= 2;
        let won = winner(places[2 * place], places[2 * place + 1]);
        if places[place] == won {
            return;
        }
        places[place] = won;
    }
}

/// Rescales the activities of the entrants, and plays all matches anew.
fn rescale_all(places: &mut [Option<Candidate>], count: usize)
    requires { length places.old ≡ count + count }
    ensures played { IsPlayed places.new count }
    ensures rescaled { (k : ℕ) → k < count → entrant places.new (count + k) ≡ option_map rescaled_candidate (entrant places.old (count + k)) }
{
    for k in 0..count {
        if let Some(candidate) = places[count + k] {
            places[count + k] = Some(Candidate {
                activity: candidate.activity / SCALE,
                var: candidate.var,
            });
        }
    }
    play_all(places, count);
}
