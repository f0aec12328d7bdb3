//! Theorems about all descriptions. The functions do nothing; their contracts are the theorems.

ghost use Rattle.std.specs.Prelude.{◌≡◌, Some, codes};
ghost use Rattle.serde_json.specs.Data.{Data};
ghost use Rattle.miette_tree.specs.rules.Tree.{Tree};
ghost use Rattle.miette_tree.specs.rules.Reads.{AlwaysReads};
ghost use Rattle.miette_description.specs.rules.Members.{optional_value, at_key};
ghost use Rattle.miette_description.specs.rules.Description.{report_from, report_in, reports_in, described_tree};

/// The result depends only on the values at the known keys. The cause and each related report are descriptions too.
pub fn a_description_is_read_by_its_keys()
    ensures { (d : Data) → report_in d ≡ report_from (optional_value report_in (at_key (codes "cause") d))
        (optional_value reports_in (at_key (codes "related") d)) d }
{}

/// The sources of a described report never fail to read, so its text is determined.
pub fn a_described_report_always_reads()
    ensures { (d : Data) (t : Tree) → described_tree d ≡ Some t → AlwaysReads t }
{}
