//! The laws of a link: functions that do nothing, and whose contracts are the laws.
ghost use Rattle.std.specs.Prelude.{[], ◌++◌, ◌∷◌, ◌≡◌, ◌⊎◌, IsSome, List, Some, length};
ghost use Rattle.kern_model.specs.declared.journal.Entry.{Entry};
ghost use Rattle.client_model.specs.declared.event.Reply.{Reply};
ghost use Rattle.link_model.specs.Asked.{Asked, Grows, IsAnswered, IsClosed, IsFine};
ghost use Rattle.link_model.specs.Asked.{IsPerformed, IsWholeAgain, Stays};
ghost use Rattle.link_model.specs.Asked.{after, after_collecting, collected, direct_of, entry_of};
ghost use Rattle.link_model.specs.Asked.{journal_before, number_of, start_of};
ghost use Rattle.link_model.specs.Going.{Going, HasGoneOn, asking, asking_number};
ghost use Rattle.link_model.specs.Going.{collecting_cookie, collecting_process, cookie_of, gone_on};
ghost use Rattle.link_model.specs.Greeting.{Greeting, IsGreeted, opened};
ghost use Rattle.link_model.specs.Link.{carried, made};
ghost use Rattle.link_model.specs.Route.{route};
ghost use Rattle.link_model.specs.declared.moves.Move.TheVariants.{ToClient, ToServer};
ghost use Rattle.link_model.specs.declared.moves.Move.{Move};

/// A guest that greets a server over a new connection has a whole link once its frame and the
/// response were carried over.
pub fn greetings_make_links_whole()
    ensures { (greeting : Greeting)
        → IsGreeted greeting (carried (opened greeting) (ToServer ∷ ToClient ∷ [])) }
{}

/// A call that is asked over a whole link gives what it gives where it is made of the kernel at
/// once, with its caller's memory in hand, whatever moves are made on the link.
///
/// Asking by frames is gathering (`asks`): the call has one entry at the most, which is of what it
/// reads of that memory. Putting by frames is delivering (`puts`): the call isn't answered yet, or
/// its caller sees what it would see at once, at the place of the entry. The journal grows as the
/// server answers that the call is done, and else never (`grows`), and neither side refuses what
/// comes to it (`fine`). None of the server's cookies is made or used (`cookies`), and no
/// connection opens (`stays`). Where the kernel is ready for the call, it can be brought to its
/// answer from wherever it is (`ends`), and has it at the end of its route (`arrives`). Once that
/// is collected, the link is whole again (`whole`), and its request is closed (`closed`).
pub fn calls_by_frames_are_direct()
    ensures starts { (asked : Asked) → (start_of asked).0 ≡ Reply.Started (number_of asked) }
    ensures asks { (asked : Asked) (moves : List Move)
        → let journal = (after asked moves).server.journal in
        (journal ≡ journal_before asked) ⊎ IsPerformed asked journal }
    ensures puts { (asked : Asked) (moves : List Move)
        → let link = after asked moves in
        (collected asked link ≡ Reply.NotYet []) ⊎ IsAnswered asked link }
    ensures grows { (asked : Asked) (moves : List Move) (move : Move)
        → let link = after asked moves in
        let next = made link move in
        Grows asked link.server.journal next.server next.link.server.journal }
    ensures fine { (asked : Asked) (moves : List Move) (move : Move)
        → IsFine (made (after asked moves) move) }
    ensures cookies { (asked : Asked) (moves : List Move)
        → (after asked moves).server.cookies ≡ asked.link.server.cookies }
    ensures stays { (asked : Asked) (moves : List Move) → Stays asked (after asked moves) }
    ensures ends { (asked : Asked) (moves : List Move)
        → IsSome (direct_of asked)
        → (more : List Move) × IsAnswered asked (after asked (moves ++ more)) }
    ensures arrives { (asked : Asked) (entry : Entry)
        → entry_of asked ≡ Some entry
        → IsAnswered asked (after asked (route asked entry)) }
    ensures whole { (asked : Asked) (moves : List Move)
        → IsAnswered asked (after asked moves)
        → IsWholeAgain asked (after_collecting asked (after asked moves)) }
    ensures closed { (asked : Asked) (moves : List Move)
        → IsAnswered asked (after asked moves)
        → IsClosed asked (after_collecting asked (after asked moves)) }
{}

/// A process that goes on as its next program has a whole link over the new connection.
///
/// Its client asks for a cookie over the whole link (`starts`), and who collects it gets the one
/// that the server makes with the salt (`readies`). The next program's client greets with it, and
/// who collects the handshake gets the same process, and the place of its exec, which is the end of
/// the journal before it (`images`). Once the connection that was left has ended, the link is
/// whole, and nothing but the exec was performed (`goes_on`).
pub fn next_programs_have_whole_links()
    ensures starts { (going : Going) → (asking going).0 ≡ Reply.Started (asking_number going) }
    ensures readies { (going : Going)
        → (collecting_cookie going).0 ≡ Reply.ExecReady (cookie_of going) }
    ensures images { (going : Going) → (collecting_process going).0
        ≡ Reply.Joined going.whole.pid (Some (record { 0 = length going.link.server.journal })) }
    ensures goes_on { (going : Going) → HasGoneOn going (gone_on going) }
{}
