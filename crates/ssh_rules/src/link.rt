// Steps, marks and reports.

ghost use Rattle.std.specs.Prelude.{◌≡◌};

use ssh_kex::FinishedExchange;
use ssh_wire::{Blob, Error, PayloadList, Side};
use std::marker::Model;

#[derive(Debug, Drop)]
pub enum Step {
    Submit(Side, Blob),
    Deliver(Side, u64),
    Rekey(Side),
    Settle,
}

#[derive(Clone, Copy, Debug, Drop)]
pub struct SideMark {
    pub sent: u64,
    pub taken: u64,
    pub delivered: u64,
    pub finished: u64,
    pub inside: bool,
    pub submitted: u64,
}

#[derive(Clone, Copy, Debug, Drop)]
pub struct Mark {
    pub client: SideMark,
    pub server: SideMark,
}

#[derive(Debug, Drop)]
pub struct MarkList {
    items: Vec<Mark>,
}

impl Model for MarkList {
    ghost use Rattle.std.specs.Prelude.{List};
    ghost use Rattle.ssh_rules.specs.declared.link.Mark.{Mark};

    ghost Value = { List Mark };

    ghost view = { λ l. l.items.items };
}

impl MarkList {
    /// The marks of the vector, which is kept as it is.
    pub fn new(items: Vec<Mark>) -> Self
        ensures { result ≡ items.items }
    {
        MarkList { items }
    }

    /// The marks, the first one first.
    pub fn as_slice(&self) -> &[Mark]
        ensures { result.now ≡ self.now }
    {
        self.items.as_slice()
    }

    /// The vector that the marks stand in.
    pub fn into_vec(self) -> Vec<Mark>
        ensures { result.items ≡ self }
    {
        self.items
    }
}

#[derive(Debug, Drop)]
pub struct ExchangeList {
    items: Vec<FinishedExchange>,
}

impl Model for ExchangeList {
    ghost use Rattle.std.specs.Prelude.{List};
    ghost use Rattle.ssh_kex.specs.declared.exchange.FinishedExchange.{FinishedExchange};

    ghost Value = { List FinishedExchange };

    ghost view = { λ l. l.items.items };
}

impl ExchangeList {
    /// The exchanges of the vector, which is kept as it is.
    pub fn new(items: Vec<FinishedExchange>) -> Self
        ensures { result ≡ items.items }
    {
        ExchangeList { items }
    }

    /// The exchanges, the first one first.
    pub fn as_slice(&self) -> &[FinishedExchange]
        ensures { result.now ≡ self.now }
    {
        self.items.as_slice()
    }

    /// The vector that the exchanges stand in.
    pub fn into_vec(self) -> Vec<FinishedExchange>
        ensures { result.items ≡ self }
    {
        self.items
    }
}

#[derive(Debug, Drop)]
pub struct SideReport {
    pub wire: Blob,
    pub taken: u64,
    pub delivered: PayloadList,
    pub exchanges: ExchangeList,
}

#[derive(Debug, Drop)]
pub struct LinkReport {
    pub client: SideReport,
    pub server: SideReport,
    pub marks: MarkList,
}

/// A step of an attacked link.
#[derive(Debug, Drop)]
pub enum AttackStep {
    Submit(Side, Blob),
    Feed(Side, Blob),
    Rekey(Side),
}

/// What each step was answered.
#[derive(Debug, Drop)]
pub struct AnswerList {
    items: Vec<Result<(), Error>>,
}

impl Model for AnswerList {
    ghost use Rattle.std.specs.Prelude.{List, Result};
    ghost use Rattle.ssh_wire.specs.declared.error.Error.{Error};

    ghost Value = { List (Result (Unit {0}) Error) };

    ghost view = { λ l. l.items.items };
}

impl AnswerList {
    /// The answers of the vector, which is kept as it is.
    pub fn new(items: Vec<Result<(), Error>>) -> Self
        ensures { result ≡ items.items }
    {
        AnswerList { items }
    }

    /// The answers, the first one first.
    pub fn as_slice(&self) -> &[Result<(), Error>]
        ensures { result.now ≡ self.now }
    {
        self.items.as_slice()
    }

    /// The vector that the answers stand in.
    pub fn into_vec(self) -> Vec<Result<(), Error>>
        ensures { result.items ≡ self }
    {
        self.items
    }
}

#[derive(Debug, Drop)]
pub struct AttackReport {
    pub client: SideReport,
    pub server: SideReport,
    pub answers: AnswerList,
}
