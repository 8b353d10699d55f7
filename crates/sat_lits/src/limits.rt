ghost use Rattle.std.specs.Prelude.{◌≡◌, ◌↔◌, IsNone, IsSome, IfSome};
ghost use Rattle.sat_lits.specs.Limits.{LimitNumbers, IsWithinStandard, standard_limits};

use std::marker::Model;

/// The greatest numbers of variables, literals, solver threads and input bytes that are taken.
#[derive(Clone, Copy, Debug)]
pub struct Limits {
    vars: u32,
    lits: u64,
    threads: u32,
    input: u64,
}

impl Model for Limits {
    ghost use Rattle.sat_lits.specs.Limits.{LimitNumbers, IsWithinStandard};

    ghost Value = { LimitNumbers };

    ghost view = { λ l. record { vars = l.vars; lits = l.lits; threads = l.threads; input = l.input } };

    ghost invariant = { λ l. IsWithinStandard (record { vars = l.vars; lits = l.lits; threads = l.threads; input = l.input }) };

    ghost inverse = { λ n. record { vars = n.vars; lits = n.lits; threads = n.threads; input = n.input } };
}

impl Limits {
    /// The greatest limits that there are.
    pub fn standard() -> Limits
        ensures { result ≡ standard_limits }
    {
        Limits {
            vars: 16_777_215,
            lits: 33_554_432,
            threads: 64,
            input: 2_147_483_648,
        }
    }

    /// Limits of these numbers. None comes exactly where one is greater than the standard one or
    /// `threads` is 0.
    pub fn new(vars: u32, lits: u64, threads: u32, input: u64) -> Option<Limits>
        ensures some { IsSome result ↔ IsWithinStandard (record { vars = vars; lits = lits; threads = threads; input = input }) }
        ensures value { IfSome result (λ l. l ≡ record { vars = vars; lits = lits; threads = threads; input = input }) }
    {
        let standard = Limits::standard();
        let is_within = vars <= standard.vars
            && lits <= standard.lits
            && 1 <= threads
            && threads <= standard.threads
            && input <= standard.input;
        if is_within {
            Some(Limits {
                vars,
                lits,
                threads,
                input,
            })
        } else {
            None
        }
    }

    /// The greatest number of variables.
    pub fn vars(&self) -> u32
        ensures value { result ≡ self.now.vars }
        ensures within { IsWithinStandard self.now }
    {
        self.vars
    }

    /// The greatest number of literals, over all clauses and parities.
    pub fn lits(&self) -> u64
        ensures value { result ≡ self.now.lits }
        ensures within { IsWithinStandard self.now }
    {
        self.lits
    }

    /// The greatest number of solver threads.
    pub fn threads(&self) -> u32
        ensures value { result ≡ self.now.threads }
        ensures within { IsWithinStandard self.now }
    {
        self.threads
    }

    /// The greatest number of input bytes.
    pub fn input(&self) -> u64
        ensures value { result ≡ self.now.input }
        ensures within { IsWithinStandard self.now }
    {
        self.input
    }
}

#[cfg(test)]
mod tests {
    use super::*;

    #[test]
    fn limits_are_at_most_the_standard_ones(rt: HostRuntime) {
        let rows = [
            ((16_777_215, 33_554_432, 64, 2_147_483_648), true),
            ((0, 0, 1, 0), true),
            ((16_777_216, 3, 1, 100), false),
            ((2, 33_554_433, 1, 100), false),
            ((2, 3, 0, 100), false),
            ((2, 3, 65, 100), false),
            ((2, 3, 1, 2_147_483_649), false),
        ];
        for ((vars, lits, threads, input), is_some) in rows {
            let limits = Limits::new(vars, lits, threads, input);
            assert_eq!(rt;
                limits.is_some(),
                is_some,
                "at {vars} {lits} {threads} {input}"
            );
            if let Some(limits) = limits {
                assert_eq!(rt; (limits.vars(), limits.lits()), (vars, lits));
                assert_eq!(rt; (limits.threads(), limits.input()), (threads, input));
            }
        }
    }
}
