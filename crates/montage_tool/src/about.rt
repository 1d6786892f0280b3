// What the program says of itself.
ghost use Rattle.std.specs.Prelude.{◌≡◌, ◌↔◌, Some, map, string_bytes};
ghost use Rattle.montage_tool.specs.Forms.{AreHelp, AreVersion};

/// The answer to `--help`.
pub const HELP: &str = "\
montage: runs jobs over buffered durable structures, and goes on after crashes

usage:
  montage run                    runs the job on standard input, writes its report
  montage crash FILE             the same, and writes the image that a crash leaves
  montage resume FILE            runs the job on what the image FILE holds
  montage resume FILE OUT        the same, and writes the image that a crash leaves
  montage recover FILE WORKERS   writes what the image FILE holds; WORKERS is 1 to 64
  montage check FILE             holds the report on standard input against the image
                                 FILE: yes, or no and the first that differs
  montage replay                 replays the schedule on standard input, step by step
  montage big NUMBER             runs the generated job of a number, 20000 lines on
                                 threads, and writes sums of what a crash leaves
  montage bank NUMBER            runs the generated bank of a number, transfers on
                                 threads, and writes them with the accounts' total
  montage --help                 this text
  montage --version              the version

examples:
  montage run < examples/first.job
  montage crash a.image < examples/sync.job
  montage resume a.image < examples/reads.job
  montage resume a.image b.image < examples/reads.job
  montage recover b.image 4
  montage resume a.image b.image < examples/reads.job > b.report
  montage check b.image < b.report
  montage replay < examples/put.schedule
  montage big 7
  montage bank 7

A job is lines of text. The first is
  montage-job 3 KINDS S N A MASK
KINDS has a letter for each of 1 to 16 units: m for a map, q a queue, g a graph,
o an ordered map. S from 8 to 4096 are the slots of a unit, N from 1 to 8 the
callers, A up to 1000000 how often it is tried beside them to move the clock on.
MASK is 16 digits 0 to 9, a to f: which words a crash leaves at their current
values. Then come lines that cut a caller, or as caller N the attempts, after K
steps:
  stop C K
The others are lines of the callers 0 to N-1, each in a thread of its own:
  C put KEY VALUE     C get KEY           C del KEY
  C enq UNIT ITEM     C deq UNIT          C len UNIT
  C addv UNIT V ATTR  C delv UNIT V       C vertex UNIT V     C degree UNIT V
  C adde UNIT V W ATTR                    C dele UNIT V W
  C oput UNIT KEY VALUE                   C oget UNIT KEY     C odel UNIT KEY
  C ofloor UNIT KEY   C orank UNIT KEY    C orange UNIT FROM TO MOST
  C tick              C sync
A key or a value has at most 24 bytes. A byte from ! to ~ other than % stands for
itself, any other is % and two digits 0 to 9, a to f. The empty text is % alone.
Each line is ended by one line feed alone. A carriage return, a comment and a
blank line are refused.

exit status, and what to do:
  0  done
  2  bad words: see usage
  3  bad job: mend the line that is told
  4  bad image: FILE is no image, or was damaged
  5  read fault: standard input or FILE can't be read
  6  write fault: standard output or OUT can't be written, or has no room left
  7  out of memory
  8  a map unit without an empty box: only where another program calls the library
  9  the image has the layout that is told: give the job the same KINDS and S
 10  bad report: no run writes the line that is told; 0 for one that is too long
 11  not allowed: the machine can't do the event on the line that is told
 12  bad schedule: mend the line that is told
";

/// The answer to `--version`.
pub const VERSION: &str = "montage 0.3.0\n";

// What the program may be asked of itself.
#[derive(Clone, Copy, Debug, PartialEq, Eq)]
pub(crate) enum Question {
    Help,
    Version,
}

// What the words ask of the program itself.
pub(crate) fn question_of(words: &[String]) -> Option<Question>
    ensures help { (result ≡ Some Question.Help) ↔ AreHelp (map string_bytes words.now) }
    ensures version { (result ≡ Some Question.Version) ↔ AreVersion (map string_bytes words.now) }
{
    match words {
        [word] if word.as_str() == "--help" => Some(Question::Help),
        [word] if word.as_str() == "--version" => Some(Question::Version),
        _ => None,
    }
}

impl Question {
    // What is said.
    pub(crate) fn text(self) -> &'static str
        ensures help { self ≡ Question.Help → result.now ≡ HELP.now }
        ensures version { self ≡ Question.Version → result.now ≡ VERSION.now }
    {
        match self {
            Question::Help => HELP,
            Question::Version => VERSION,
        }
    }
}
