// The replies that a line of a schedule may tell.
ghost use Rattle.std.specs.Prelude.{◌≡◌, ◌≢◌, MatchOption};

/// The first word of a reply.
#[derive(Clone, Copy, Debug, PartialEq, Eq)]
pub enum Reply {
    Nothing,
    Was,
    Count,
    NoEnds,
    Key,
    Pairs,
}

/// All of them, in the order in which they are told.
pub const REPLIES: [Reply; 6] = [
    Reply::Nothing,
    Reply::Was,
    Reply::Count,
    Reply::NoEnds,
    Reply::Key,
    Reply::Pairs,
];

impl Reply {
    ghost use Rattle.refusal_help.specs.declared.reply.Reply.{Reply};
    ghost use Rattle.refusal_help.specs.Table.{reply_word};

    /// How it is spelled.
    pub fn word(self) -> &'static [u8]
        ensures { result.now ≡ reply_word self }
    {
        match self {
            Reply::Nothing => b"none",
            Reply::Was => b"was",
            Reply::Count => b"count",
            Reply::NoEnds => b"noends",
            Reply::Key => b"key",
            Reply::Pairs => b"pairs",
        }
    }

    /// The one that a word names.
    pub fn of_word(word: &[u8]) -> Option<Reply>
        ensures { MatchOption result ((name : Reply) → word.now ≢ reply_word name)
            (λ name. word.now ≡ reply_word name) }
    {
        for name in REPLIES {
            if name.word() == word {
                return Some(name);
            }
        }
        None
    }
}
