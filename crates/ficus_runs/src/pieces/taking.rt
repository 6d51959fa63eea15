ghost use Rattle.ficus_runs.specs.Pieces.Laws.{MixedPiecesJoin, ServesAgree, ServesMayCome, TakenAnswer, TakenAreAlike, TakenTablesAreOne};

/// Pieces that a replica served at one generation, at whichever positions, are joined to the tables of each of them.
pub fn pieces_may_be_mixed()
    ensures { MixedPiecesJoin }
{}

/// What a replica has taken since its open ask answers that ask. Where it wants a piece, all that it has taken is of
/// one state of one server, in as many pieces: what the server saved where it served them is what it saved where it
/// served this piece.
pub fn taken_pieces_are_alike()
    ensures answer { TakenAnswer }
    ensures served { TakenAreAlike }
    ensures tables { TakenTablesAreOne }
{}

/// Where each earlier Serve of an ask had as many pieces as its tables, so may the next one come. Servings of one ask
/// with one state have one number of pieces.
pub fn serves_may_come()
    ensures agree { ServesAgree }
    ensures next { ServesMayCome }
{}
