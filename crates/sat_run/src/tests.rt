use crate::report::Report;
use crate::serve::run;
use crate::write::write_block;
use sat_api::SatSolver;
use sat_lits::{List, NoMemory};
use sat_ports::{BytesSink, BytesSource, PlainSource, Silent, Sink, Source};
use std::alloc::Global;
use std::test::Fail;
use std::thread::Threads;

/// One model, that makes both variables true.
const BOTH: &[u8] = b"1 2 0\n-1 2 0\n1 -2 0\n";

/// The output on it.
const BOTH_OUTPUT: &[u8] = b"s SATISFIABLE\nv 1 2 0\n";

/// No model.
const NONE: &[u8] = b"1 0\n-1 0\n";

/// Two variables, and no model.
const NEITHER: &[u8] = b"1 2 0\n-1 2 0\n1 -2 0\n-1 -2 0\n";

/// The output on a text without a model.
const NO_MODEL_OUTPUT: &[u8] = b"s UNSATISFIABLE\nc failed 0\n";

/// Runs with these words on a new solver, and answers the status.
fn run_with<R: Threads + Sync + AllocGlobal, S: Source, K: Sink>(
    rt: &R,
    words: &[&str],
    source: &mut S,
    sink: &mut K,
) -> u8 {
    let mut solver = SatSolver::new(rt.alloc());
    run(
        rt,
        rt.alloc(),
        words,
        source,
        sink,
        &mut Silent::new(),
        &mut solver,
    )
}

/// Runs without words on a new solver, and answers the status.
fn run_on<R: Threads + Sync + AllocGlobal, S: Source, K: Sink>(
    rt: &R,
    source: &mut S,
    sink: &mut K,
) -> u8 {
    run_with(rt, &[], source, sink)
}

/// A sink with room for all that the tests write, whose listed calls fail.
fn wide_sink<R: AllocGlobal>(rt: &R, failing: &[u64]) -> Result<BytesSink, NoMemory> {
    BytesSink::with_room(rt.alloc(), 1000, failing)
}

/// The number of the variable that says that a pigeon sits in a hole.
fn place(holes: i32, pigeon: i32, hole: i32) -> i32 {
    pigeon
        .wrapping_mul(holes)
        .wrapping_add(hole)
        .wrapping_add(1)
}

/// Writes that a pigeon sits in some hole.
fn write_pigeon(text: &mut String, holes: i32, pigeon: i32) -> Result<(), Fail> {
    for hole in 0..holes {
        write!(text, "{} ", place(holes, pigeon, hole))?;
    }
    writeln!(text, "0")?;
    Ok(())
}

/// Writes that a pigeon sits in no hole with one before it.
fn write_pairs(text: &mut String, holes: i32, pigeon: i32) -> Result<(), Fail> {
    for hole in 0..holes {
        for other in 0..pigeon {
            let (first, second) = (place(holes, other, hole), place(holes, pigeon, hole));
            writeln!(text, "-{first} -{second} 0")?;
        }
    }
    Ok(())
}

/// The text that so many pigeons sit in so many holes, no two in one.
fn pigeons_in(alloc: Global, pigeons: i32, holes: i32) -> Result<String, Fail> {
    let mut text = String::new(alloc);
    for pigeon in 0..pigeons {
        write_pigeon(&mut text, holes, pigeon)?;
        write_pairs(&mut text, holes, pigeon)?;
    }
    Ok(text)
}

/// Draws numbers, by a linear congruential generator.
#[derive(Drop)]
struct Draws {
    state: u64,
}

impl Draws {
    /// A number from 0 up to and without the bound.
    fn below(&mut self, bound: i64) -> i64 {
        self.state = self
            .state
            .wrapping_mul(6364136223846793005)
            .wrapping_add(1442695040888963407);
        let drawn = i64::try_from(self.state >> 33).unwrap_or(0);
        drawn.checked_rem(bound).unwrap_or(0)
    }

    /// The literal of a variable, given by its number from 1, with a sign that is drawn.
    fn literal(&mut self, number: i64) -> i64 {
        if self.below(2) == 0 {
            number
        } else {
            number.wrapping_neg()
        }
    }
}

/// How many variables the planted formula has.
const PLANTED_VARS: i64 = 200;

/// How many clauses the planted formula has.
const PLANTED_CLAUSES: usize = 800;

/// A literal for each variable in order, to be made true.
fn plant(alloc: Global, draws: &mut Draws) -> Result<Vec<i64>, Fail> {
    let mut planted = Vec::new(alloc);
    for number in 1..=PLANTED_VARS {
        planted.push(draws.literal(number))?;
    }
    Ok(planted)
}

/// Whether one of the clause's literals is among those that are true.
fn is_satisfied(clause: &[i64; 3], literals: &[i64]) -> bool {
    clause.iter().any(|literal| literals.contains(literal))
}

/// Three different numbers of variables, each of them as likely.
fn three_numbers(draws: &mut Draws) -> [i64; 3] {
    let first = draws.below(PLANTED_VARS);
    let step = draws.below(PLANTED_VARS - 1).wrapping_add(1);
    let second = first.wrapping_add(step).wrapping_rem(PLANTED_VARS);
    let mut third = draws.below(PLANTED_VARS - 2);
    for taken in [first.min(second), first.max(second)] {
        if third >= taken {
            third = third.wrapping_add(1);
        }
    }
    [first, second, third].map(|number| number.wrapping_add(1))
}

/// A clause of three different variables that one planted literal satisfies.
fn planted_clause(draws: &mut Draws, planted: &[i64]) -> [i64; 3] {
    let [first, second, third] = three_numbers(draws);
    let first = draws.literal(first);
    let rest = (draws.literal(second), draws.literal(third));
    let clause = [first, rest.0, rest.1];
    if is_satisfied(&clause, planted) {
        clause
    } else {
        [first.wrapping_neg(), rest.0, rest.1]
    }
}

/// Clauses that the planted literals satisfy.
fn planted_clauses(alloc: Global, draws: &mut Draws) -> Result<Vec<[i64; 3]>, Fail> {
    let planted = plant(alloc, draws)?;
    let mut clauses = Vec::new(alloc);
    for _ in 0..PLANTED_CLAUSES {
        clauses.push(planted_clause(draws, &planted))?;
    }
    Ok(clauses)
}

/// The text of these clauses.
fn text_of(alloc: Global, clauses: &[[i64; 3]]) -> Result<String, Fail> {
    let mut text = String::new(alloc);
    for [first, second, third] in clauses {
        writeln!(text, "{first} {second} {third} 0")?;
    }
    Ok(text)
}

/// The literals that a model's output names, in order.
fn printed_literals(alloc: Global, output: &[u8]) -> Result<Vec<i64>, Fail> {
    let line = str::from_utf8(output)?
        .strip_prefix("s SATISFIABLE\nv ")
        .ok_or("no model")?
        .strip_suffix(" 0\n")
        .ok_or("no end")?;
    let mut literals = Vec::new(alloc);
    for word in line.split(' ') {
        let literal: i64 = word.parse()?;
        literals.push(literal)?;
    }
    Ok(literals)
}

#[test]
fn each_text_has_its_output(rt: HostRuntime) -> Result<(), Fail> {
    let rows = [
        (BOTH, BOTH_OUTPUT, 10),
        (NONE, NO_MODEL_OUTPUT, 20),
        (b"".as_slice(), b"s SATISFIABLE\nv 0\n".as_slice(), 10),
        (b"0".as_slice(), NO_MODEL_OUTPUT, 20),
        (
            b"1\n2 0 -1 0 -2\n3 0".as_slice(),
            b"s SATISFIABLE\nv -1 2 3 0\n".as_slice(),
            10,
        ),
        (
            b"-3 0\n2 0 1 0".as_slice(),
            b"s SATISFIABLE\nv 1 2 -3 0\n".as_slice(),
            10,
        ),
        (
            b"1 0\np cnf 1 1\n".as_slice(),
            b"s SATISFIABLE\nv 1 0\n".as_slice(),
            10,
        ),
        (b"1 2".as_slice(), b"c refused truncated 3\n".as_slice(), 2),
        (
            b"16777216 0\n".as_slice(),
            b"c refused var-too-large 0\n".as_slice(),
            2,
        ),
        (
            b"c Solver::solve( 3 -3 )\n-1 0\n-2 0\n-3 0\n%\n0\n".as_slice(),
            b"s UNSATISFIABLE\nc failed 3 -3 0\ns SATISFIABLE\nv -1 -2 -3 0\n".as_slice(),
            10,
        ),
    ];
    for (text, output, status) in rows {
        let mut sink = wide_sink(&rt, &[])?;
        assert_eq!(rt;
            run_on(&rt, &mut PlainSource::new(text), &mut sink),
            status,
            "at {text:?}"
        );
        assert_eq!(rt; sink.bytes(), output, "at {text:?}");
    }
    Ok(())
}

#[test]
fn a_text_is_refused_behind_its_limit(rt: HostRuntime) -> Result<(), Fail> {
    let refused = b"c refused too-long 4\n".as_slice();
    let rows: [(&[&str], &[u8], u8); 4] = [
        (&["--max-input", "4"], refused, 2),
        (&["--max-input=4", "--maxconfl", "0"], refused, 2),
        (&["--maxconfl=109", "--max-input", "8"], BOTH_OUTPUT, 10),
        (&["--max-input=2147483648"], BOTH_OUTPUT, 10),
    ];
    for (words, output, status) in rows {
        let mut sink = wide_sink(&rt, &[])?;
        let mut source = PlainSource::new(b"1 0\n2 0\n");
        assert_eq!(rt;
            run_with(&rt, words, &mut source, &mut sink),
            status,
            "at {words:?}"
        );
        assert_eq!(rt; sink.bytes(), output, "at {words:?}");
    }
    Ok(())
}

#[test]
fn other_words_are_not_taken(rt: HostRuntime) -> Result<(), Fail> {
    let rows: [&[&str]; 31] = [
        &["--help"],
        &["--"],
        &["-"],
        &[""],
        &["first.cnf"],
        &["--maxconfl"],
        &["--maxconfl="],
        &["--maxconfl", ""],
        &["--maxconfl", "+1"],
        &["--maxconfl=-1"],
        &["--maxconfl", "000000000000000000109"],
        &["--maxconfl=18446744073709551616"],
        &["--maxconf", "1"],
        &["--maxconfl", "1", "first.cnf"],
        &["--maxconfl", "--maxconfl=1"],
        &["--maxconfl", "1", "--maxconfl", "1"],
        &["--maxconfl=1", "--maxconfl=1"],
        &["--maxconfl", "1", "--maxconfl=1"],
        &["--maxconfl=1", "--maxconfl", "1"],
        &["--max-input", "2147483649"],
        &["--max-input=-4"],
        &["--max-input=4", "--max-input", "4"],
        &["--maxconfl", "1", "--max-input"],
        &["--threads", "0"],
        &["--threads", "65"],
        &["--threads", "64", "--threads", "64"],
        &["--threads=2", "--threads", "2"],
        &["--threads"],
        &["--threads", "--print-shared"],
        &["--print-shared", "--print-shared"],
        &["--print-shared=1"],
    ];
    for words in rows {
        let mut source = PlainSource::new(BOTH);
        let mut sink = wide_sink(&rt, &[])?;
        assert_eq!(rt;
            run_with(&rt, words, &mut source, &mut sink),
            1,
            "at {words:?}"
        );
        assert_eq!(rt; sink.bytes(), b"".as_slice());
        let mut rest = [0u8; 100];
        assert_eq!(rt; source.read(&mut rest), Ok(BOTH.len()));
    }
    Ok(())
}

/// The shared clauses stand behind the verdict, where the words ask for them.
#[test]
fn shared_clauses_are_listed(rt: HostRuntime) -> Result<(), Fail> {
    let listed: &[u8] = b"s SATISFIABLE\nv 1 0\nc shared 0 0 1 0\n";
    let rows: [(&[&str], &[u8]); 3] = [
        (&["--print-shared"], listed),
        (&["--print-shared", "--threads=1"], listed),
        (&["--threads", "64"], b"s SATISFIABLE\nv 1 0\n"),
    ];
    for (words, output) in rows {
        let mut source = PlainSource::new(b"1 0\n");
        let mut sink = wide_sink(&rt, &[])?;
        assert_eq!(rt; run_with(&rt, words, &mut source, &mut sink), 10);
        assert_eq!(rt; sink.bytes(), output, "at {words:?}");
    }
    Ok(())
}

#[test]
fn a_limit_that_is_enough_leaves_the_verdict(rt: HostRuntime) -> Result<(), Fail> {
    let rows: [&[&str]; 4] = [
        &["--maxconfl=109"],
        &["--maxconfl", "109"],
        &["--maxconfl", "00000000000000000109"],
        &["--maxconfl=18446744073709551615"],
    ];
    for words in rows {
        let mut sink = wide_sink(&rt, &[])?;
        let status = run_with(&rt, words, &mut PlainSource::new(NEITHER), &mut sink);
        assert_eq!(rt; status, 20, "at {words:?}");
        assert_eq!(rt; sink.bytes(), NO_MODEL_OUTPUT, "at {words:?}");
    }
    Ok(())
}

#[test]
fn a_limit_of_zero_leaves_the_verdict_or_is_spent(rt: HostRuntime) -> Result<(), Fail> {
    let mut sink = wide_sink(&rt, &[])?;
    let status = run_with(
        &rt,
        &["--maxconfl", "0"],
        &mut PlainSource::new(NEITHER),
        &mut sink,
    );
    let output = if status == 15 {
        b"s INDETERMINATE\nc limit 0\n".as_slice()
    } else {
        NO_MODEL_OUTPUT
    };
    assert!(rt; status == 15 || status == 20, "{status}");
    assert_eq!(rt; sink.bytes(), output);
    Ok(())
}

#[test]
fn pigeons_do_not_fit(rt: HostRuntime) -> Result<(), Fail> {
    let spent = b"s INDETERMINATE\nc limit 10\n".as_slice();
    let rows: [(i32, i32, &[&str], &[u8], u8); 2] = [
        (6, 5, &[], NO_MODEL_OUTPUT, 20),
        (7, 6, &["--maxconfl", "10"], spent, 15),
    ];
    for (pigeons, holes, words, output, status) in rows {
        let text = pigeons_in(rt.alloc(), pigeons, holes)?;
        let mut source = PlainSource::new(text.as_bytes());
        let mut sink = wide_sink(&rt, &[])?;
        assert_eq!(rt;
            run_with(&rt, words, &mut source, &mut sink),
            status,
            "of {pigeons}"
        );
        assert_eq!(rt; sink.bytes(), output, "of {pigeons}");
    }
    Ok(())
}

#[test]
fn a_planted_formula_has_a_model(rt: HostRuntime) -> Result<(), Fail> {
    let clauses = planted_clauses(rt.alloc(), &mut Draws { state: 3 })?;
    let text = text_of(rt.alloc(), &clauses)?;
    let mut sink = wide_sink(&rt, &[])?;
    assert_eq!(rt;
        run_on(&rt, &mut PlainSource::new(text.as_bytes()), &mut sink),
        10
    );
    let literals = printed_literals(rt.alloc(), sink.bytes())?;
    let numbers = literals.iter().map(|literal| literal.wrapping_abs());
    assert!(rt; numbers.eq(1..=PLANTED_VARS), "{literals:?}");
    for clause in clauses.iter() {
        assert!(rt; is_satisfied(clause, &literals), "{clause:?}");
    }
    Ok(())
}

#[test]
fn a_spent_limit_is_told(rt: HostRuntime) -> Result<(), Fail> {
    let mut sink = wide_sink(&rt, &[])?;
    let report = Report::Limit(List::from_slice(rt.alloc(), &[109])?);
    assert_eq!(rt; write_block(rt.alloc(), &mut sink, &report, &[]), Ok(()));
    assert_eq!(rt; report.status(), 15);
    assert_eq!(rt; sink.bytes(), b"s INDETERMINATE\nc limit 109\n".as_slice());
    Ok(())
}

#[test]
fn pieces_of_any_size_give_the_same_output(rt: HostRuntime) -> Result<(), Fail> {
    for piece in [1, 2, 7] {
        let mut sink = wide_sink(&rt, &[])?;
        assert_eq!(rt;
            run_on(&rt, &mut BytesSource::new(BOTH, piece, &[]), &mut sink),
            10,
            "at {piece}"
        );
        assert_eq!(rt; sink.bytes(), BOTH_OUTPUT, "at {piece}");
    }
    Ok(())
}

/// A text over and over.
fn repeated(alloc: Global, text: &[u8], times: usize) -> Result<Vec<u8>, Fail> {
    let mut long = Vec::new(alloc);
    for _ in 0..times {
        long.extend_from_slice(text)?;
    }
    Ok(long)
}

/// The text takes two reads. The first ends between the minus and the digit of a literal.
#[test]
fn a_text_of_two_pieces_is_read_whole(rt: HostRuntime) -> Result<(), Fail> {
    let text = repeated(rt.alloc(), BOTH, 3300)?;
    assert_eq!(rt; text.len(), 66_000);
    let mut sink = wide_sink(&rt, &[])?;
    let status = run_on(&rt, &mut PlainSource::new(&text), &mut sink);
    assert_eq!(rt; status, 10);
    assert_eq!(rt; sink.bytes(), BOTH_OUTPUT);
    Ok(())
}

#[test]
fn nothing_is_written_after_a_failed_read(rt: HostRuntime) -> Result<(), Fail> {
    for failing in [[0], [1], [2]] {
        let mut sink = wide_sink(&rt, &[])?;
        assert_eq!(rt;
            run_on(&rt, &mut BytesSource::new(BOTH, 15, &failing), &mut sink),
            3
        );
        assert_eq!(rt; sink.bytes(), b"".as_slice());
    }
    Ok(())
}

/// The first read ends behind the question, and the second one fails.
#[test]
fn a_question_before_a_failed_read_is_answered(rt: HostRuntime) -> Result<(), Fail> {
    let mut source = BytesSource::new(b"1 0\nc Solver::solve( )\n2 0\n", 23, &[1]);
    let mut sink = wide_sink(&rt, &[])?;
    assert_eq!(rt; run_on(&rt, &mut source, &mut sink), 3);
    assert_eq!(rt; sink.bytes(), b"s SATISFIABLE\nv 1 0\n".as_slice());
    Ok(())
}

#[test]
fn nothing_is_written_where_the_first_write_fails(rt: HostRuntime) -> Result<(), Fail> {
    for text in [NONE, b"x".as_slice()] {
        let mut sink = wide_sink(&rt, &[0])?;
        assert_eq!(rt; run_on(&rt, &mut PlainSource::new(text), &mut sink), 4);
        assert_eq!(rt; sink.bytes(), b"".as_slice());
    }
    Ok(())
}

#[test]
fn a_short_sink_gets_a_front_of_the_output(rt: HostRuntime) -> Result<(), Fail> {
    for room in 0..BOTH_OUTPUT.len() {
        let mut sink = BytesSink::with_room(rt.alloc(), room, &[])?;
        assert_eq!(rt;
            run_on(&rt, &mut PlainSource::new(BOTH), &mut sink),
            4,
            "at {room}"
        );
        assert_eq!(rt; sink.bytes(), &BOTH_OUTPUT[..room], "at {room}");
    }
    Ok(())
}
