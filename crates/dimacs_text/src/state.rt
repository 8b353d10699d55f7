ghost use Rattle.std.specs.Prelude.{◌≡◌, ◌↔◌, ◌+◌, ◌<◌, ◌^◌, true, [], List, OnOk, IfOk};
ghost use Rattle.sat_lits.specs.declared.literal.Lit.{Lit};
ghost use Rattle.dimacs_text.specs.declared.command.Command.{Command};
ghost use Rattle.dimacs_text.specs.declared.refusal.Refusal.{Refusal};
ghost use Rattle.dimacs_text.specs.Lists.{parity_of};
ghost use Rattle.dimacs_text.specs.declared.state.Stage.TheVariants.{Ended};
ghost use Rattle.dimacs_text.specs.Words.{IsNamable};
ghost use Rattle.dimacs_text.specs.Arguments.{solve_last, growth_last};
ghost use Rattle.dimacs_text.specs.Steps.{IsFresh, made, without_list, list_step, variables_step, headed_step, header_step, plain_word, word_step, with_command, solve_line, growth_line, line_by, named_byte, comment_byte, comment_step, fresh_step, solid_step, plain_step, byte_step, last_step, end_step, Does};
ghost use Rattle.dimacs_text.specs.declared.token.Token.TheVariants.{Ending};

use crate::arguments::Arguments;
use crate::command::{Command, Commands};
use crate::comment::{Comment, comment_next};
use crate::phrase::{Phrase, Wanted};
use crate::refusal::{ReadError, Refusal};
use crate::token::{
    Token, Word, extended, is_begun, is_blank, is_format, is_p, number_of, token_of,
};
use sat_lits::{Limits, List, Lit, NoMemory};
use std::alloc::Global;
use std::mem;

/// Whether a reader goes on.
#[derive(Clone, Copy)]
pub enum Stage {
    /// More of the text may come.
    Open,
    /// A `%` has ended the text.
    Ended,
    /// The text was said to end.
    Finished,
    /// This is answered from now on.
    Failed(ReadError),
}

/// What a reader knows of the text so far.
#[derive(Drop)]
pub struct State {
    pub alloc: Global,
    pub limits: Limits,
    pub stage: Stage,
    /// The number of bytes so far.
    pub place: u64,
    /// The place of the token or the comment that has begun.
    pub start: u64,
    /// The number of variables named so far.
    pub named: u32,
    /// The number of literals so far.
    pub count: u64,
    pub phrase: Phrase,
    /// The literals of the open clause or parity.
    pub lits: List<Lit>,
    /// Whether an `x` has begun the token.
    pub after_x: bool,
    /// The token that has begun, or what follows its `x`.
    pub word: Word,
    pub comment: Comment,
    /// What stands between the brackets of the comment.
    pub arguments: Arguments,
}

/// The parity of the variables of literals, false for each minus sign that flips it.
fn parity_of(alloc: Global, lits: &[Lit]) -> Result<Command, NoMemory>
    ensures { IfOk result (λ command. command ≡ parity_of lits.now) }
{
    let mut vars = List::new(alloc);
    let mut rhs = true;
    for lit in lits {
        vars.push(lit.var)?;
        if lit.negative {
            rhs = !rhs;
        }
    }
    Ok(Command::Parity { vars, rhs })
}

impl State {
    /// Nothing has come.
    pub fn new(alloc: Global, limits: Limits) -> State
        ensures { IsFresh limits result }
    {
        State {
            alloc,
            limits,
            stage: Stage::Open,
            place: 0,
            start: 0,
            named: 0,
            count: 0,
            phrase: Phrase::Nothing,
            lits: List::new(alloc),
            after_x: false,
            word: Word::Empty,
            comment: Comment::Absent,
            arguments: Arguments::new(alloc, 0, 0, 0),
        }
    }

    /// Whether a `%` has ended the text.
    pub fn has_ended(&self) -> bool
        ensures { (result ≡ true) ↔ (self.now.stage ≡ Ended) }
    {
        matches!(self.stage, Stage::Ended)
    }

    /// The command of the open list, whose literals are taken out.
    #[tactic(auto, unfolding(crate::specs::Steps::made))]
    fn take_list(&mut self) -> Result<Command, NoMemory>
        ensures command { IfOk result (λ command. command ≡ made self.old.phrase self.old.lits) }
        ensures state { IfOk result (λ _. self.new ≡ without_list self.old) }
    {
        let empty = List::new(self.alloc);
        let lits = mem::replace(&mut self.lits, empty);
        match self.phrase {
            Phrase::Parity => parity_of(self.alloc, lits.as_slice()),
            _ => Ok(Command::Clause(lits)),
        }
    }

    /// The ending zero of a list comes.
    #[tactic(auto, unfolding(crate::specs::Steps::list_step))]
    fn close_list(&mut self, to: &mut Commands) -> Result<(), ReadError>
        ensures { Does result self.new to.old to.new (list_step self.old Ending) }
    {
        match self.take_list() {
            Ok(command) => {
                self.phrase = Phrase::Nothing;
                self.word = Word::Empty;
                match to.push(command) {
                    Ok(()) => Ok(()),
                    Err(_) => Err(ReadError::Memory),
                }
            }
            Err(_) => Err(ReadError::Memory),
        }
    }

    /// A token ends where a list is open, or opens a clause.
    #[tactic(auto, unfolding(crate::specs::Steps::list_step))]
    fn list_step(&mut self, token: Token, to: &mut Commands) -> Result<(), ReadError>
        requires { IsNamable token }
        ensures { Does result self.new to.old to.new (list_step self.old token) }
    {
        let limits = self.limits;
        let place = self.start;
        match token {
            Token::Ending => self.close_list(to),
            Token::Literal(lit) => {
                if self.count < limits.lits() {
                    if matches!(self.phrase, Phrase::Nothing) {
                        self.phrase = Phrase::Clause;
                    }
                    self.word = Word::Empty;
                    self.named = self.named.max(lit.var.0 + 1);
                    self.count += 1;
                    match self.lits.push(lit) {
                        Ok(()) => Ok(()),
                        Err(_) => Err(ReadError::Memory),
                    }
                } else {
                    Err(ReadError::Refused(Refusal::TooManyLits { place }))
                }
            }
            Token::TooLarge => Err(ReadError::Refused(Refusal::VarTooLarge { place })),
            Token::NoLiteral => Err(ReadError::Refused(Refusal::BadToken { place })),
        }
    }

    /// The number of variables of a header has come, within the limit.
    fn variables_step(&mut self, value: u64) -> Result<(), ReadError>
        ensures { (commands : List Command)
            → Does result self.new commands commands (variables_step self.old value) }
    {
        let limits = self.limits;
        if value <= limits.vars() as u64 {
            self.phrase = Phrase::Header(Wanted::Clauses(value as u32));
            self.word = Word::Empty;
            Ok(())
        } else {
            Err(ReadError::Refused(Refusal::VarTooLarge { place: self.start }))
        }
    }

    /// The number of clauses of a header has come, behind its number of variables.
    fn headed_step(&mut self, vars: u32, to: &mut Commands) -> Result<(), ReadError>
        ensures { Does result self.new to.old to.new (headed_step self.old vars) }
    {
        let named = self.named.max(vars);
        self.named = named;
        self.phrase = Phrase::Nothing;
        self.word = Word::Empty;
        match to.push(Command::Grow { to: named }) {
            Ok(()) => Ok(()),
            Err(_) => Err(ReadError::Memory),
        }
    }

    /// A token ends where a header is open.
    #[tactic(auto, unfolding(crate::specs::Steps::header_step))]
    fn header_step(
        &mut self,
        wanted: Wanted,
        word: Word,
        to: &mut Commands,
    ) -> Result<(), ReadError>
        ensures { Does result self.new to.old to.new (header_step self.old wanted word) }
    {
        match wanted {
            Wanted::Format => {
                if is_format(word) {
                    self.phrase = Phrase::Header(Wanted::Variables);
                    self.word = Word::Empty;
                    return Ok(());
                }
            }
            Wanted::Variables => {
                if let Some(value) = number_of(word) {
                    return self.variables_step(value);
                }
            }
            Wanted::Clauses(vars) => {
                if number_of(word).is_some() {
                    return self.headed_step(vars, to);
                }
            }
        }
        Err(ReadError::Refused(Refusal::BadToken { place: self.start }))
    }

    /// A token ends that is no parity's first.
    #[tactic(auto, unfolding(crate::specs::Steps::plain_word))]
    fn plain_word(&mut self, to: &mut Commands) -> Result<(), ReadError>
        ensures { Does result self.new to.old to.new (plain_word self.old self.old.word) }
    {
        let limits = self.limits;
        match self.word {
            Word::Empty => Ok(()),
            word => match self.phrase {
                Phrase::Header(wanted) => self.header_step(wanted, word, to),
                phrase => {
                    if phrase.is_nothing() && is_p(word) {
                        self.phrase = Phrase::Header(Wanted::Format);
                        self.word = Word::Empty;
                        Ok(())
                    } else {
                        self.list_step(token_of(word, limits.vars()), to)
                    }
                }
            },
        }
    }

    /// The token that has begun ends, if there is one.
    #[tactic(auto, unfolding(crate::specs::Steps::word_step))]
    fn word_step(&mut self, to: &mut Commands) -> Result<(), ReadError>
        ensures { Does result self.new to.old to.new (word_step self.old) }
    {
        if self.after_x {
            self.after_x = false;
            self.phrase = Phrase::Parity;
        }
        self.plain_word(to)
    }

    /// The line of a solve ends.
    fn solve_line(&mut self, by_byte: bool, to: &mut Commands) -> Result<(), ReadError>
        ensures { Does result self.new to.old to.new (solve_line self.old by_byte (solve_last self.old.limits self.old.arguments)) }
    {
        if self.arguments.solve_last(self.limits).is_err() {
            return Err(ReadError::Memory);
        }
        if let Err(why) = self.arguments.judged(by_byte, self.place) {
            return Err(ReadError::Refused(why));
        }
        let arguments = self.take_arguments();
        match to.push(Command::Solve(arguments.lits)) {
            Ok(()) => Ok(()),
            Err(_) => Err(ReadError::Memory),
        }
    }

    /// The line of a growth ends.
    fn growth_line(&mut self, by_byte: bool, to: &mut Commands) -> Result<(), ReadError>
        ensures { Does result self.new to.old to.new (growth_line self.old by_byte (growth_last self.old.limits self.old.arguments)) }
    {
        self.arguments.growth_last(self.limits);
        if let Err(why) = self.arguments.judged(by_byte, self.place) {
            return Err(ReadError::Refused(why));
        }
        let arguments = self.take_arguments();
        match to.push(Command::Grow {
            to: arguments.named,
        }) {
            Ok(()) => Ok(()),
            Err(_) => Err(ReadError::Memory),
        }
    }

    /// A command is behind; its arguments are taken out.
    fn take_arguments(&mut self) -> Arguments
        ensures result { result ≡ self.old.arguments }
        ensures state { self.new ≡ with_command self.old self.old.arguments }
    {
        let none = Arguments::new(self.alloc, 0, 0, 0);
        let arguments = mem::replace(&mut self.arguments, none);
        self.comment = Comment::Absent;
        self.named = arguments.named;
        self.count = arguments.count;
        arguments
    }

    /// The line of a comment ends, by byte 10 or by the text's end.
    #[tactic(auto, unfolding(crate::specs::Steps::line_by))]
    fn line_step(&mut self, by_byte: bool, to: &mut Commands) -> Result<(), ReadError>
        ensures { Does result self.new to.old to.new (line_by self.old by_byte self.old.comment) }
    {
        let list_is_open = self.phrase.in_list();
        let place = self.start;
        match self.comment {
            Comment::Solving => {
                if list_is_open {
                    Err(ReadError::Refused(Refusal::BadToken { place }))
                } else {
                    self.solve_line(by_byte, to)
                }
            }
            Comment::Growing => {
                if list_is_open {
                    Err(ReadError::Refused(Refusal::BadToken { place }))
                } else {
                    self.growth_line(by_byte, to)
                }
            }
            _ => {
                self.comment = Comment::Absent;
                Ok(())
            }
        }
    }

    /// A byte comes before the bracket of a comment, or where it is no command.
    fn named_byte(&mut self, next: Comment)
        requires { self.old.place + 1 < 2 ^ 64 }
        ensures { self.new ≡ named_byte self.old next }
    {
        let place = self.place + 1;
        self.place = place;
        self.comment = next;
        if next.is_opened() {
            self.arguments = Arguments::new(self.alloc, self.named, self.count, place);
        }
    }

    /// A byte comes in the line of a comment.
    #[tactic(auto, unfolding(crate::specs::Steps::comment_byte))]
    fn comment_byte(&mut self, byte: u8) -> Result<(), NoMemory>
        requires { self.old.place + 1 < 2 ^ 64 }
        ensures { OnOk result (self.new ≡ comment_byte self.old byte self.old.comment) }
    {
        let in_list = self.phrase.in_list();
        let limits = self.limits;
        let place = self.place;
        match self.comment {
            Comment::Solving => {
                self.place = place + 1;
                if in_list {
                    Ok(())
                } else {
                    self.arguments.solve_byte(limits, place, byte)
                }
            }
            Comment::Growing => {
                self.place = place + 1;
                if !in_list {
                    self.arguments.growth_byte(limits, place, byte);
                }
                Ok(())
            }
            comment => {
                self.named_byte(comment_next(comment, byte));
                Ok(())
            }
        }
    }

    /// A byte comes where a comment has begun.
    #[tactic(auto, unfolding(crate::specs::Steps::comment_step))]
    fn comment_step(&mut self, byte: u8, to: &mut Commands) -> Result<(), ReadError>
        requires { self.old.place + 1 < 2 ^ 64 }
        ensures { Does result self.new to.old to.new (comment_step self.old byte) }
    {
        if byte == b'\n' {
            let next = self.place + 1;
            match self.line_step(true, to) {
                Ok(()) => {
                    self.place = next;
                    self.start = next;
                    Ok(())
                }
                Err(error) => Err(error),
            }
        } else {
            match self.comment_byte(byte) {
                Ok(()) => Ok(()),
                Err(_) => Err(ReadError::Memory),
            }
        }
    }

    /// The first byte of a token comes where no header is open.
    #[tactic(auto, unfolding(crate::specs::Steps::fresh_step))]
    fn fresh_step(&mut self, byte: u8) -> Result<(), ReadError>
        requires { self.old.place + 1 < 2 ^ 64 }
        ensures { (commands : List Command) → Does result self.new commands commands (fresh_step self.old byte) }
    {
        let limits = self.limits;
        let place = self.place;
        let is_nothing = self.phrase.is_nothing();
        if byte == b'c' {
            self.place = place + 1;
            self.comment = Comment::First;
        } else if byte == b'%' {
            if !is_nothing {
                return Err(ReadError::Refused(Refusal::Truncated { place }));
            }
            self.stage = Stage::Ended;
        } else if byte == b'x' && is_nothing {
            self.place = place + 1;
            self.after_x = true;
        } else {
            self.place = place + 1;
            self.word = extended(self.word, byte, limits.vars());
        }
        Ok(())
    }

    /// A byte that is no blank comes outside comments.
    #[tactic(auto, unfolding(crate::specs::Steps::solid_step))]
    fn solid_step(&mut self, byte: u8) -> Result<(), ReadError>
        requires { self.old.place + 1 < 2 ^ 64 }
        ensures { (commands : List Command) → Does result self.new commands commands (solid_step self.old byte) }
    {
        let limits = self.limits;
        if self.after_x || is_begun(self.word) || self.phrase.in_header() {
            self.place += 1;
            self.word = extended(self.word, byte, limits.vars());
            Ok(())
        } else {
            self.fresh_step(byte)
        }
    }

    /// A byte comes outside comments.
    #[tactic(auto, unfolding(crate::specs::Steps::plain_step))]
    fn plain_step(&mut self, byte: u8, to: &mut Commands) -> Result<(), ReadError>
        requires { self.old.place + 1 < 2 ^ 64 }
        ensures { Does result self.new to.old to.new (plain_step self.old byte) }
    {
        if !is_blank(byte) {
            return self.solid_step(byte);
        }
        let next = self.place + 1;
        match self.word_step(to) {
            Ok(()) => {
                self.place = next;
                self.start = next;
                Ok(())
            }
            Err(error) => Err(error),
        }
    }

    /// A byte comes.
    #[tactic(auto, unfolding(crate::specs::Steps::byte_step))]
    pub fn byte_step(&mut self, byte: u8, to: &mut Commands) -> Result<(), ReadError>
        ensures { Does result self.new to.old to.new (byte_step self.old byte) }
    {
        let limits = self.limits;
        let place = limits.input();
        if place <= self.place {
            return Err(ReadError::Refused(Refusal::TooLong { place }));
        }
        if self.comment.has_begun() {
            self.comment_step(byte, to)
        } else {
            self.plain_step(byte, to)
        }
    }

    /// The token or the comment that has begun ends with the text.
    #[tactic(auto, unfolding(crate::specs::Steps::last_step))]
    fn last_step(&mut self, to: &mut Commands) -> Result<(), ReadError>
        ensures { Does result self.new to.old to.new (last_step self.old) }
    {
        if self.comment.has_begun() {
            self.line_step(false, to)
        } else {
            self.word_step(to)
        }
    }

    /// The text ends.
    #[tactic(auto, unfolding(crate::specs::Steps::end_step))]
    pub fn end_step(&mut self, to: &mut Commands) -> Result<(), ReadError>
        ensures { Does result self.new to.old to.new (end_step self.old) }
    {
        let place = self.place;
        match self.last_step(to) {
            Ok(()) => {
                if self.phrase.is_nothing() {
                    Ok(())
                } else {
                    Err(ReadError::Refused(Refusal::Truncated { place }))
                }
            }
            Err(error) => Err(error),
        }
    }
}
