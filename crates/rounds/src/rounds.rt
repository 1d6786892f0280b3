// What the rounds of a chain come to, and how stores make them.
ghost use Rattle.rounds.specs.Rounds.{
  ChainsAreLegal,
  RoundsGoOn,
  StoppedStoresMakeRounds,
  SweptImagesOpenTheSame,
};

/// The operations that survive in all rounds of a chain, one round after the other, are one legal
/// history of each unit from the empty store, and lead to the state with which the last round ends.
/// Call numbers begin anew in each round.
pub fn chains_are_legal()
    ensures { ChainsAreLegal }
{}

/// A store that was stopped, with an image that a crash permits of its words, is a round, and
/// recovery rebuilds from the image what the round leaves, and nothing else.
pub fn stopped_stores_make_rounds()
    ensures { StoppedStoresMakeRounds }
{}

/// A store that opens with an image of which recovery has closed slots, all that are beyond the
/// cut or some, opens with the clock and the states of the image as it was.
pub fn swept_images_open_the_same()
    ensures { SweptImagesOpenTheSame }
{}

/// A round that opens with what a chain left makes the chain longer by one.
pub fn rounds_go_on()
    ensures { RoundsGoOn }
{}
