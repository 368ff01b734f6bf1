//! Laws of what two journals have of each other. The functions do nothing: what they ensure is for proofs.

ghost use Rattle.std.specs.Prelude.{◌≡◌, ◌↔◌, ℕ, true, List, codes};
ghost use Rattle.zre_msg.specs.declared.message.Body.{Body};
ghost use Rattle.zre_outside.specs.declared.entry.Entry.{Entry};
ghost use Rattle.zre_values.specs.declared.settings.Settings.{Settings as Config};
ghost use Rattle.zre_audit.specs.Agreement.{Agree, IsTooMany, judged};
ghost use Rattle.zre_audit.specs.Exchanged.{is_said, is_same_said};
ghost use Rattle.zre_audit.specs.Lines.{line};
ghost use Rattle.zre_audit.specs.Pairing.{HeardWhatWasPut};
ghost use Rattle.zre_audit.specs.declared.verdicts.Verdict.TheVariants.{Yes};

/// Two journals don't agree exactly where a run of one of them is one too many for the links of the other.
pub fn a_run_is_too_many_where_journals_disagree()
    ensures { (g k : Config) (J K : List Entry) → (Agree g k J K → ⊥)
        ↔ ((side : ℕ) × (run : ℕ) × (runs : ℕ) × (links : ℕ) × IsTooMany g k J K side run runs links) }
{}

/// The test of what is said decides whether it is the same.
pub fn what_is_said_is_compared()
    ensures { (b c : Body) → is_said b ≡ true → (is_same_said b c ≡ true) ↔ (b ≡ c) }
{}

/// What is judged of two journals is yes, and the line that the command `audit` writes of them is `AUDIT yes`, exactly
/// where they agree.
pub fn a_yes_is_agreement()
    ensures judged { (g k : Config) (J K : List Entry) → (judged g k J K ≡ Yes) ↔ Agree g k J K }
    ensures written { (g k : Config) (J K : List Entry)
        → (line (judged g k J K) ≡ codes "AUDIT yes\n") ↔ Agree g k J K }
{}

/// The command `audit` says yes of two captures exactly where each run that one of them has of the other's node has a
/// link of its own in the other, and is, as far as it goes, what that capture shows was put on the link.
pub fn a_yes_is_of_runs_and_links()
    ensures { (g k : Config) (J K : List Entry) → (judged g k J K ≡ Yes) ↔ HeardWhatWasPut g k J K }
{}
