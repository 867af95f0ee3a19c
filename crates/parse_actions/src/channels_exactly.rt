ghost use Rattle.std.specs.Prelude.{◌≡◌, ℕ, suc, ◌≤◌, false, List, Some};
ghost use Rattle.model_tree.specs.declared.vocabulary.Symbol.TheVariants as s;
ghost use Rattle.model_tree.specs.declared.types.SignalType.{SignalType};
ghost use Rattle.model_tree.specs.declared.types.VarType.{VarType};
ghost use Rattle.model_tree.specs.Tree as tree;
ghost use Rattle.parse_expressions.specs.ModelLexer.Tokens.{Tokens};
ghost use Rattle.parse_expressions.specs.ModelLexer.Expressions.{is_the_symbol, sees};
ghost use Rattle.parse_expressions.specs.ModelLexer.Statements.{DerivesType, DerivesVarTypeAt, DerivesChannel, DerivesEvent, DerivesArguments};
ghost use Rattle.parse_expressions.specs.ModelLexer.Brackets.{in_channel, in_all};
ghost use Rattle.parse_actions.specs.ChannelParse as spec;

/// A type of signals is read exactly where one is derived.
pub fn signal_type_exactly()
    ensures read { (x : SignalType) (ts rest : Tokens) → DerivesType x ts rest → spec.signal_type ts ≡ Some (x, rest) }
    ensures derived { (x : SignalType) (ts rest : Tokens) → spec.signal_type ts ≡ Some (x, rest) → DerivesType x ts rest }
{}

/// A type of variables is read exactly where one is derived, its first token on the line that is answered.
pub fn variable_type_exactly()
    ensures read { (line : ℕ) (x : VarType) (ts rest : Tokens) → DerivesVarTypeAt line x ts rest → spec.variable_type ts ≡ Some ((line, x), rest) }
    ensures derived { (line : ℕ) (x : VarType) (ts rest : Tokens) → spec.variable_type ts ≡ Some ((line, x), rest) → DerivesVarTypeAt line x ts rest }
{}

/// A channel is read where one is derived that no `@` follows; what is read is derived. No more brackets are open
/// in it than may be.
pub fn channel_exactly()
    ensures read { (brackets : ℕ) (c : tree.Channel) (ts rest : Tokens) → DerivesChannel c ts rest → in_channel c ≤ brackets → sees (is_the_symbol s.At) rest ≡ false → spec.channel brackets ts ≡ Some (c, rest) }
    ensures derived { (brackets : ℕ) (c : tree.Channel) (ts rest : Tokens) → spec.channel brackets ts ≡ Some (c, rest) → DerivesChannel c ts rest × (in_channel c ≤ brackets) }
{}

/// An event is read where one is derived that no `@` and no `.` follows; what is read is derived. No more brackets
/// are open in it than may be.
pub fn event_exactly()
    ensures read { (brackets : ℕ) (e : tree.Event) (ts rest : Tokens) → DerivesEvent e ts rest → in_channel e.channel ≤ brackets → sees (is_the_symbol s.At) rest ≡ false → sees (is_the_symbol s.Dot) rest ≡ false → spec.event brackets ts ≡ Some (e, rest) }
    ensures derived { (brackets : ℕ) (e : tree.Event) (ts rest : Tokens) → spec.event brackets ts ≡ Some (e, rest) → DerivesEvent e ts rest × (in_channel e.channel ≤ brackets) }
{}

/// Arguments are read exactly where they are derived with no more brackets open than may be, theirs among them.
pub fn arguments_exactly()
    ensures read { (brackets : ℕ) (es : List tree.Expression) (ts rest : Tokens) → DerivesArguments es ts rest → suc (in_all es) ≤ brackets → spec.arguments brackets ts ≡ Some (es, rest) }
    ensures derived { (brackets : ℕ) (es : List tree.Expression) (ts rest : Tokens) → spec.arguments brackets ts ≡ Some (es, rest) → DerivesArguments es ts rest × (suc (in_all es) ≤ brackets) }
{}
