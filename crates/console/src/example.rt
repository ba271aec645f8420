//! The example that the program tells by itself.

/// What a newcomer has to know.
pub const OPENING: &str = "\
A register says who may do what. People, yards, folders and cards are its entities, and each has a number.
A ticket is a right that one entity holds for another. 5/r is the right to read (r) entity 5, and 5/w the right to write
on it (w). With the copy flag (c), as in 5/rc, its holder may also pass the ticket on, where the rules allow it.
People, yards and folders are subjects: they hold tickets. A card is an object: there are tickets for it, but it holds
none.

A ticket is passed on by a link, which holds from a giver to a taker. The rules say which tickets each link passes.
Three rights make the links:
  t (take)   Whoever may take from an entity can be given tickets by it. That is link 0.
  g (grant)  Whoever may grant to an entity can give tickets to it. That is link 0 too.
  o (own)    An owner and what it owns can give tickets to each other. That is link 1.

A register is set up by hand first, which means that entities are entered, and then opened. From there on, all goes by
the rules. A call that they forbid is refused, with a number that always stands for the same reason.

Here is one register from beginning to end. Ana has a hunter, which is a horse, and the hunter has a card. Ana puts the
card into a folder, and passes the folder on to Ben through a yard. Then the hunter is sold, and a pony has a card of
its own.

Each answer stands at the left. Below it stand the command, with a remark that says who or what is meant, and what the
answer tells.
";

/// The script.
pub const SCRIPT: &str = "\
scheme card      # the rules for people and their cards
cells 8          # room for at most 8 entities
enter person     # Ana
enter person     # Ben
open
create yard 1    # Ana makes a yard. She owns it, and it may take from her and grant to her
create folder 1  # Ana makes a folder. She owns it, may take from it, and may pass that on
create card 1    # Ana makes the hunter's card. She may read it and write on it, and may pass both on
copy 1 4 5/rc    # Ana puts the card into the folder, and the folder may pass it on
copy 1 3 4/tc    # Ana brings the folder to the yard, and the yard may pass it on
demand 1 2/gc    # Ana asks for the right to grant to Ben
copy 1 3 2/g     # Ana lets the yard grant to Ben
copy 3 2 4/t     # the yard lets Ben take from the folder
copy 4 2 5/r     # the folder lets Ben read the card
ask 2 5/r        # may Ben read the card?
ask 2 5/w        # may Ben write on it?
retire 5         # the hunter is sold, and its card goes
ask 2 5/r        # may Ben still read card 5? There is none
create card 2    # Ben makes a card for a pony. It does not get the old number 5
ask 2 6/r        # may Ben read the pony's card?
ask 1 6/r        # may Ana read it?
copy 2 4 6/rc    # may Ben put it into Ana's folder?
";

/// What was to be seen. The program's name follows.
pub const CLOSING: &str = "
So Ben could read the hunter's card but not write on it, and when the card went, so did every ticket for it. The pony's
card has another number, and no old ticket reaches it: only Ben has tickets for it. Two calls were refused: one with
number 1, since there is no card 5 any more, and one with number 5, since no link holds from Ben to the folder. Ben may
take from the folder, so link 0 holds from the folder to him, but not back. To write a script of your own, see";
