ghost use Rattle.sql_reader.specs.Law.{ReadsEach, ReadsOnce, ReadsRight};

/// The law of the grammar. It does nothing, and its clauses say for every list of tokens that reading by the grammar is
/// right: what is read as a query is one, and the only one; where none is read, the place is that of the first token with
/// which the tokens so far begin no query. Every query is read, and no list of tokens is two queries.
/// docs/FORMATS.md, "Query", has the grammar.
pub fn grammar_law()
    ensures right { ReadsRight }
    ensures each { ReadsEach }
    ensures once { ReadsOnce }
{}
