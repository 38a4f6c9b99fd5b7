// The laws of the listing. The statements are in the model, the proofs in proofs/.
#![tactic(auto)]

ghost use Rattle.model.specs.ListingLaws.{ListingMeans, ListingSizes};

// In every cycle of the run, the listing says what issues.
pub fn listing_means_issues()
    ensures { ListingMeans }
{}

// How many passes, rows and slots a listing has.
pub fn listing_sizes()
    ensures { ListingSizes }
{}
