// What each step tells its caller.
use crate::views::{Cell, View};
use atomic_table::Play;
use std::marker::{Brand, PhantomData};

/// Names with what the store opened, for a proof alone.
pub trait Opened {
    ghost use Rattle.heap_rule.specs.declared.rule.Opening.{Opening};

    ghost opening: { Opening };
}

impl Opened for Brand {
    ghost use Rattle.heap_rule.specs.Views.{some_opening};

    ghost opening = { some_opening };
}

/// Names with what the store opened, an operation and its reply, for a proof alone.
pub trait Answer {
    ghost use Rattle.mont_base.specs.declared.operation.Op.{Op};
    ghost use Rattle.mont_base.specs.declared.operation.Reply.{Reply};
    ghost use Rattle.heap_rule.specs.declared.rule.Opening.{Opening};

    ghost opening: { Opening };

    ghost op: { Op };

    ghost reply: { Reply };
}

impl Answer for Brand {
    ghost use Rattle.mont_base.specs.declared.operation.Op.TheVariants.{Len};
    ghost use Rattle.mont_base.specs.declared.operation.Reply.TheVariants.{Nothing};
    ghost use Rattle.heap_rule.specs.Views.{some_opening};

    ghost opening = { some_opening };

    ghost op = { Len 0 };

    ghost reply = { Nothing };
}

/// The caller takes a note of the unit.
pub struct HearsUnit<N> {
    of: PhantomData<N>,
}

impl<N: Opened> Play<Cell, View> for HearsUnit<N> {
    ghost use Rattle.heap_rule.specs.Plays.{heard};

    ghost then = { heard N.opening };
}

/// The caller takes the note of another.
pub struct HearsNews;

impl Play<Cell, View> for HearsNews {
    ghost use Rattle.heap_rule.specs.Plays.{heard_news};

    ghost then = { heard_news };
}

/// The unit leaves its epoch with an answer.
pub struct Leaves<N> {
    of: PhantomData<N>,
}

impl<N: Answer> Play<Cell, View> for Leaves<N> {
    ghost use Rattle.heap_rule.specs.Plays.{left};

    ghost then = { left N.opening N.op N.reply };
}

/// The unit answers what changes nothing.
pub struct Reads<N> {
    of: PhantomData<N>,
}

impl<N: Answer> Play<Cell, View> for Reads<N> {
    ghost use Rattle.heap_rule.specs.Plays.{read};

    ghost then = { read N.opening N.op N.reply };
}

/// The unit loads the clock.
pub struct Looks;

impl Play<Cell, View> for Looks {
    ghost use Rattle.heap_rule.specs.Plays.{looked};

    ghost then = { looked };
}

/// The unit announces an epoch.
pub struct Tells;

impl Play<Cell, View> for Tells {
    ghost use Rattle.heap_rule.specs.Plays.{told};

    ghost then = { told };
}

/// The unit loads the clock again.
pub struct Confirms;

impl Play<Cell, View> for Confirms {
    ghost use Rattle.heap_rule.specs.Plays.{confirmed};

    ghost then = { confirmed };
}

/// The unit stores a word of a slot.
pub struct Stores;

impl Play<Cell, View> for Stores {
    ghost use Rattle.heap_rule.specs.Plays.{wrote};

    ghost then = { wrote };
}

/// The unit takes its announcement back.
pub struct Withdraws;

impl Play<Cell, View> for Withdraws {
    ghost use Rattle.heap_rule.specs.Plays.{withdrew};

    ghost then = { withdrew };
}

/// The unit loads the durable clock.
pub struct LoadsDurable<N> {
    of: PhantomData<N>,
}

impl<N: Opened> Play<Cell, View> for LoadsDurable<N> {
    ghost use Rattle.heap_rule.specs.Plays.{loaded_durable};

    ghost then = { loaded_durable N.opening };
}

/// The unit closes a label.
pub struct ClosesLabel;

impl Play<Cell, View> for ClosesLabel {
    ghost use Rattle.heap_rule.specs.Plays.{closed};

    ghost then = { closed };
}

/// The unit makes that label durable.
pub struct PersistsClose<N> {
    of: PhantomData<N>,
}

impl<N: Opened> Play<Cell, View> for PersistsClose<N> {
    ghost use Rattle.heap_rule.specs.Plays.{persisted};

    ghost then = { persisted N.opening };
}

/// The caller is cut in the unit.
pub struct Freezes;

impl Play<Cell, View> for Freezes {
    ghost use Rattle.heap_rule.specs.Plays.{frozen};

    ghost then = { frozen };
}

/// The caller loads the durable clock.
pub struct SeesDurable;

impl Play<Cell, View> for SeesDurable {
    ghost use Rattle.heap_rule.specs.Plays.{saw_durable};

    ghost then = { saw_durable };
}

/// The advancer loads an announcement.
pub struct Checks<N> {
    of: PhantomData<N>,
}

impl<N: Opened> Play<Cell, View> for Checks<N> {
    ghost use Rattle.heap_rule.specs.Plays.{checked};

    ghost then = { checked N.opening };
}

/// The advancer loads a word.
pub struct LoadsWord;

impl Play<Cell, View> for LoadsWord {
    ghost use Rattle.heap_rule.specs.Plays.{loaded_word};

    ghost then = { loaded_word };
}

/// The advancer makes that word durable.
pub struct PersistsWord;

impl Play<Cell, View> for PersistsWord {
    ghost use Rattle.heap_rule.specs.Plays.{persisted_word};

    ghost then = { persisted_word };
}

/// The advancer moves the clock.
pub struct SetsClock;

impl Play<Cell, View> for SetsClock {
    ghost use Rattle.heap_rule.specs.Plays.{set_clock};

    ghost then = { set_clock };
}

/// The advancer makes the clock durable.
pub struct PersistsClock<N> {
    of: PhantomData<N>,
}

impl<N: Opened> Play<Cell, View> for PersistsClock<N> {
    ghost use Rattle.heap_rule.specs.Plays.{persisted_clock};

    ghost then = { persisted_clock N.opening };
}

/// The unit takes its list out.
pub struct TakesList;

impl Play<Cell, View> for TakesList {
    ghost use Rattle.heap_rule.specs.Plays.{took_list};

    ghost then = { took_list };
}

/// The unit gives its list back.
pub struct GivesList;

impl Play<Cell, View> for GivesList {
    ghost use Rattle.heap_rule.specs.Plays.{gave_list};

    ghost then = { gave_list };
}

/// The advancer takes a full list out.
pub struct TakesFull;

impl Play<Cell, View> for TakesFull {
    ghost use Rattle.heap_rule.specs.Plays.{took_full};

    ghost then = { took_full };
}

/// The advancer gives it back empty.
pub struct GivesEmpty;

impl Play<Cell, View> for GivesEmpty {
    ghost use Rattle.heap_rule.specs.Plays.{gave_empty};

    ghost then = { gave_empty };
}
