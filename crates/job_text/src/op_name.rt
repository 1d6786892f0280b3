// The words by which operations are named.
ghost use Rattle.std.specs.Prelude.{◌≡◌, ◌≢◌, MatchOption};

/// The first word of an operation.
#[derive(Clone, Copy, Debug, PartialEq, Eq)]
pub enum OpName {
    Put,
    Get,
    Del,
    Enq,
    Deq,
    Len,
    AddV,
    DelV,
    AddE,
    DelE,
    Vertex,
    Degree,
    OPut,
    OGet,
    ODel,
    OFloor,
    ORank,
    ORange,
}

const ALL: [OpName; 18] = [
    OpName::Put,
    OpName::Get,
    OpName::Del,
    OpName::Enq,
    OpName::Deq,
    OpName::Len,
    OpName::AddV,
    OpName::DelV,
    OpName::AddE,
    OpName::DelE,
    OpName::Vertex,
    OpName::Degree,
    OpName::OPut,
    OpName::OGet,
    OpName::ODel,
    OpName::OFloor,
    OpName::ORank,
    OpName::ORange,
];

impl OpName {
    ghost use Rattle.job_text.specs.declared.op_name.OpName.{OpName};
    ghost use Rattle.job_text.specs.Operations.{name_word, args_count};

    /// How it is spelled.
    pub fn word(self) -> &'static [u8]
        ensures { result.now ≡ name_word self }
    {
        match self {
            OpName::Put => b"put",
            OpName::Get => b"get",
            OpName::Del => b"del",
            OpName::Enq => b"enq",
            OpName::Deq => b"deq",
            OpName::Len => b"len",
            OpName::AddV => b"addv",
            OpName::DelV => b"delv",
            OpName::AddE => b"adde",
            OpName::DelE => b"dele",
            OpName::Vertex => b"vertex",
            OpName::Degree => b"degree",
            OpName::OPut => b"oput",
            OpName::OGet => b"oget",
            OpName::ODel => b"odel",
            OpName::OFloor => b"ofloor",
            OpName::ORank => b"orank",
            OpName::ORange => b"orange",
        }
    }

    /// How many words stand after it.
    pub fn args_count(self) -> usize
        ensures { result ≡ args_count self }
    {
        match self {
            OpName::Get | OpName::Del | OpName::Deq | OpName::Len => 1,
            OpName::Put | OpName::Enq | OpName::DelV | OpName::Vertex | OpName::Degree => 2,
            OpName::OGet | OpName::ODel | OpName::OFloor | OpName::ORank => 2,
            OpName::AddV | OpName::DelE | OpName::OPut => 3,
            OpName::AddE | OpName::ORange => 4,
        }
    }

    /// The name that a word is.
    pub fn of_word(word: &[u8]) -> Option<OpName>
        ensures { MatchOption result ((name : OpName) → word.now ≢ name_word name)
            (λ name. word.now ≡ name_word name) }
    {
        for name in ALL {
            if name.word() == word {
                return Some(name);
            }
        }
        None
    }
}
