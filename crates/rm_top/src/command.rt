// The commands, by the words of a command line.

ghost use Rattle.std.specs.Prelude.{◌≡◌, map, option_map, string_bytes};
ghost use Rattle.rm_top.specs.Command.{command_of, doctor_word, folder_in, kind_of, own_at, own_file_in, word_at};

use std::marker::Model;

/// The usage line.
pub const USAGE: &str =
    "usage: rm_match place F | check F | report F | choose F OFFERS | audit F PLACEMENT | whatif F DOCTOR LIST | journal F | verify F JOURNAL | transit F EVENTS\n";

/// The number that a refusal has in place of a file's where it speaks of a word.
pub const WORDS: u8 = 0;

/// The number of the word that names a doctor, counted from 1.
pub const DOCTOR_WORD: u64 = 3;

/// What a command does.
#[derive(Clone, Copy, Debug)]
pub enum Kind {
    /// Place the doctors.
    Place,
    /// Count what the folder holds.
    Check,
    /// Report the placement by prefectures.
    Report,
    /// Choose the best of the contracts in a file of offers.
    Choose,
    /// Find whether the placement in a file is stable.
    Audit,
    /// Place the doctors, once as they are and once with another list of one of them.
    WhatIf,
    /// Write the journal of offers.
    Journal,
    /// Say what is so of the journal in a file.
    Verify,
    /// Tell where everybody stands after the events in a file.
    Transit,
}

// What a first word asks for, with so many words in all.
fn kind_of(word: &str, count: usize) -> Option<Kind>
    ensures { result ≡ kind_of word.now count }
{
    match count {
        2 if word == "place" => Some(Kind::Place),
        2 if word == "check" => Some(Kind::Check),
        2 if word == "report" => Some(Kind::Report),
        3 if word == "choose" => Some(Kind::Choose),
        3 if word == "audit" => Some(Kind::Audit),
        4 if word == "whatif" => Some(Kind::WhatIf),
        2 if word == "journal" => Some(Kind::Journal),
        3 if word == "verify" => Some(Kind::Verify),
        3 if word == "transit" => Some(Kind::Transit),
        _ => None,
    }
}

impl Kind {
    // Which word, counted from 0, names the command's own file.
    fn own_at(self) -> Option<usize>
        ensures { result ≡ own_at self }
    {
        match self {
            Kind::Choose => Some(2),
            Kind::Audit => Some(2),
            Kind::WhatIf => Some(3),
            Kind::Verify => Some(2),
            Kind::Transit => Some(2),
            _ => None,
        }
    }
}

// The word of this number, counted from 0; the empty one past the last.
fn word_at(words: &[String], k: usize) -> &str
    ensures { result.now ≡ word_at (map string_bytes words.now) k }
{
    if k < words.len() {
        words[k].as_str()
    } else {
        ""
    }
}

/// A command: what it does, and all its words.
#[derive(Drop)]
pub struct Command<'a> {
    kind: Kind,
    words: &'a [String],
}

impl<'a> Model for Command<'a> {
    ghost use Rattle.std.specs.Prelude.{map, string_bytes};
    ghost use Rattle.rm_top.specs.Command.{Command as Meant};

    ghost Value = { Meant };

    ghost view = { λ c. record { kind = c.kind; words = map string_bytes c.words.now } };
}

impl<'a> Command<'a> {
    /// The command that the words after the program's name spell. None exactly where they spell none.
    pub fn new(words: &'a [String]) -> Option<Command<'a>>
        ensures { result ≡ command_of (map string_bytes words.now) }
    {
        match kind_of(word_at(words, 0), words.len()) {
            Some(kind) => Some(Command { kind, words }),
            None => None,
        }
    }

    /// What it does.
    pub fn kind(&self) -> Kind
        ensures { result ≡ self.now.kind }
    {
        self.kind
    }

    /// Its folder, the word after its own.
    pub fn folder(&self) -> &'a str
        ensures { result.now ≡ folder_in self.now }
    {
        word_at(self.words, 1)
    }

    /// Its doctor, the word after its folder; of a command that has one.
    pub fn doctor(&self) -> &'a str
        ensures { result.now ≡ doctor_word self.now.words }
    {
        word_at(self.words, 2)
    }

    /// Its own file, where it has one.
    pub fn own_file(&self) -> Option<&'a str>
        ensures { option_map (λ s. s.now) result ≡ own_file_in self.now }
    {
        match self.kind.own_at() {
            Some(k) => Some(word_at(self.words, k)),
            None => None,
        }
    }
}
