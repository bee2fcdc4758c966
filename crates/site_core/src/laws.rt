//! A law of the definitions, with no program in it. The function does nothing.
ghost use Rattle.std.specs.Prelude.{◌≡◌, ◌≢◌, ℕ, ◌≤◌, false, List, [], ◌∷◌, Option, None};
ghost use Rattle.rights_types.specs.Entries.{EntryValue};
ghost use Rattle.rights_types.specs.Messages.{AskValue};
ghost use Rattle.rights_types.specs.declared.moves.Move.{Move};
ghost use Rattle.rights_types.specs.declared.moves.Move.TheVariants.{Issue, Spend, Give};
ghost use Rattle.rights_book.specs.Books.{sites};
ghost use Rattle.transfer_manager.specs.declared.answer.AskAnswer.{AskAnswer};
ghost use Rattle.site_core.specs.Ledgers.{EntryKeeps, ClosingKeeps, IsNextOf, ApplyKeeps};
ghost use Rattle.site_core.specs.Desks.{DeskValue, DeskSound};
ghost use Rattle.site_core.specs.Faults.{has_closed, post_fault, issue_fault, give_fault, spend_fault, take_fault};
ghost use Rattle.site_core.specs.Faults.{serve_fault, close_fault};
ghost use Rattle.site_core.specs.Calls.{DeskWrites, DeskSpends, SpendKeeps, DeskServes, ServeKeeps, answer_of};
ghost use Rattle.site_core.specs.Calls.{DeskAnswers, AnswerKeeps, DeskApplies, DeskCloses};
ghost use Rattle.site_core.specs.declared.desk.requests.Spending.{Spending};

/// What passed the tests of a desk, the protocol allows. The relation of each call says what was tested and what was
/// written. From that follow what the site may write, that the same entries count as applied, and what the book's
/// readers return.
pub fn tested_is_allowed()
    ensures post { (d new : DeskValue) (ms : List Move) → DeskSound d → post_fault d ms ≡ None → DeskWrites d ms new
        → EntryKeeps d.ledger ms new.ledger }
    ensures issue { (d new : DeskValue) (n : ℕ) → DeskSound d → issue_fault d n ≡ None → DeskWrites d (Issue n ∷ []) new
        → EntryKeeps d.ledger (Issue n ∷ []) new.ledger }
    ensures give { (d new : DeskValue) (j n : ℕ) → DeskSound d → give_fault d j n ≡ None
        → DeskWrites d (Give j n ∷ []) new
        → EntryKeeps d.ledger (Give j n ∷ []) new.ledger }
    ensures spend { (d new : DeskValue) (n deadline : ℕ) (spending : Spending) → DeskSound d → spend_fault d n ≡ None
        → DeskSpends d n deadline spending new → SpendKeeps d n spending new }
    ensures take { (d new : DeskValue) (n : ℕ) → DeskSound d → take_fault d n ≡ None
        → DeskWrites d (Spend n ∷ []) new → EntryKeeps d.ledger (Spend n ∷ []) new.ledger }
    ensures serve { (d new : DeskValue) (served : Option (ℕ × ℕ)) → DeskSound d → serve_fault d ≡ None
        → DeskServes d served new → ServeKeeps d served new }
    ensures grant { (d new : DeskValue) (ask : AskValue) (answer : AskAnswer) (number : Option ℕ) → DeskSound d
        → ask.asker ≤ sites d.ledger.book → ask.asker ≢ d.ledger.book.me → answer_of d ask ≡ answer
        → DeskAnswers d ask answer number new → AnswerKeeps d ask answer new }
    ensures close { (d new : DeskValue) (heir : Option ℕ) → DeskSound d → close_fault d heir ≡ None
        → DeskCloses d heir new → ClosingKeeps d.ledger heir new.ledger }
    ensures apply { (d new : DeskValue) (o : ℕ) (e : EntryValue) → DeskSound d → has_closed d ≡ false
        → IsNextOf d.ledger.book o e → (w : DeskApplies d o e new)
        → ApplyKeeps d.ledger o e w.entry.between new.ledger }
{}
