ghost use Rattle.std.specs.Prelude.{◌<◌, ◌^◌};
ghost use Rattle.std.specs.Option.{SomeIff};
ghost use Rattle.sat_lits.specs.Conflicts.{interval_len as conflicts_of};

/// The number of conflicts of the `k`-th interval, counted from 0, or None where the interval has no
/// end but an answer.
pub fn interval_len(k: u64) -> Option<u64>
    ensures { SomeIff result (k < 2 ^ 20) (conflicts_of k) }
{
    if k < 1 << 20 {
        Some(100 + 20 * k)
    } else {
        None
    }
}

#[cfg(test)]
mod tests {
    use super::*;

    #[test]
    fn intervals_grow_until_the_last(rt: HostRuntime) {
        let rows = [
            (0, Some(100)),
            (1, Some(120)),
            (4, Some(180)),
            ((1 << 20) - 1, Some(20_971_600)),
            (1 << 20, None),
            (u64::MAX, None),
        ];
        for (k, len) in rows {
            assert_eq!(rt; interval_len(k), len, "interval {k}");
        }
    }
}
