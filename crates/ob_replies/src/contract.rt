//! The contracts that the server names.
ghost use Rattle.std.specs.Prelude.{◌≡◌, ◌∷◌, [], IfOk};
ghost use Rattle.ob_replies.specs.ContractWords as contract_words;

use ob_object::{WordFault, Words};
use ob_values::Text;
use std::alloc::{AllocError, Global};

/// A contract of oBIX that an object of the server names.
///
/// Source: oBIX 1.1, chapters 4, 5, 10 and 12 to 15.
#[derive(Clone, Copy, PartialEq, Eq)]
pub enum Contract {
    Nil,
    About,
    BatchIn,
    BatchOut,
    BadUriErr,
    UnsupportedErr,
    PermissionErr,
    WatchService,
    Watch,
    WatchIn,
    WatchOut,
    Point,
    WritePointIn,
    HistoryRecord,
    HistoryFilter,
    HistoryQueryOut,
    Alarm,
    AlarmFilter,
    AlarmQueryOut,
    AckAlarmIn,
    AckAlarmOut,
}

impl Contract {
    /// The word that names it.
    fn word(self) -> &'static str
        ensures { result.now ≡ contract_words.contract self }
    {
        match self {
            Contract::Nil => "obix:Nil",
            Contract::About => "obix:About",
            Contract::BatchIn => "obix:BatchIn",
            Contract::BatchOut => "obix:BatchOut",
            Contract::BadUriErr => "obix:BadUriErr",
            Contract::UnsupportedErr => "obix:UnsupportedErr",
            Contract::PermissionErr => "obix:PermissionErr",
            Contract::WatchService => "obix:WatchService",
            Contract::Watch => "obix:Watch",
            Contract::WatchIn => "obix:WatchIn",
            Contract::WatchOut => "obix:WatchOut",
            Contract::Point => "obix:Point",
            Contract::WritePointIn => "obix:WritePointIn",
            Contract::HistoryRecord => "obix:HistoryRecord",
            Contract::HistoryFilter => "obix:HistoryFilter",
            Contract::HistoryQueryOut => "obix:HistoryQueryOut",
            Contract::Alarm => "obix:Alarm",
            Contract::AlarmFilter => "obix:AlarmFilter",
            Contract::AlarmQueryOut => "obix:AlarmQueryOut",
            Contract::AckAlarmIn => "obix:AckAlarmIn",
            Contract::AckAlarmOut => "obix:AckAlarmOut",
        }
    }

    /// A list of this word alone.
    #[tactic(auto, using(crate::proofs::Fits::contract_printable, crate::proofs::Fits::contract_word))]
    pub fn words(self, alloc: Global) -> Result<Words, AllocError>
        ensures { IfOk result (λ words. words ≡ contract_words.contract self ∷ []) }
    {
        let text = Text::from_ascii(alloc, self.word())?;
        let mut words = Words::new(alloc);
        match words.push(text) {
            Ok(()) => Ok(words),
            Err(WordFault::NotWord { word: _word }) => unreachable!(),
            Err(WordFault::Memory { word: _word }) => Err(AllocError),
        }
    }
}
