//! The grammar of a line.

ghost use Rattle.std.specs.Prelude.{◌≡◌, ◌↔◌, ℕ, Some, Result, List};
ghost use Rattle.sj_job.specs.declared.form.Form.{Form};
ghost use Rattle.sj_job.specs.declared.form.SettingForm.{SettingForm};
ghost use Rattle.sj_job.specs.declared.reason.Reason.{Reason};
ghost use Rattle.sj_job.specs.Form.{form_of};
ghost use Rattle.sj_job.specs.Sentence.{said};
ghost use Rattle.sj_job.specs.Grammar.{Spells, Says};
ghost use Rattle.sj_job.specs.Settings.{setting_of, setting_written};

/// The forms are read from the words that the grammar writes for them, and from no others; and a line is found to say
/// what the grammar has it say, and nothing else.
pub fn grammar()
    ensures spelled { (words : List (List ℕ)) (form : Form) →
        ((form_of words ≡ Some form) ↔ Spells words form) }
    ensures said { (words : List (List ℕ)) (says : Result Form Reason) →
        ((said words ≡ says) ↔ Says words says) }
    ensures settings { (words : List (List ℕ)) (form : SettingForm) →
        ((setting_of words ≡ Some form) ↔ (words ≡ setting_written form)) }
{}
