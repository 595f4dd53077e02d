//! Reference tables: small task sets with their known judgements, proved from the definitions alone.
#![tactic(auto)]

ghost use Rattle.vectors.specs.Tables.{ReferenceTables};

/// Does nothing; its contract says that every reference table has the busy period, responses, offsets, verdict and priorities that are known for it.
pub fn reference_tables_stand()
    ensures { ReferenceTables }
{}
