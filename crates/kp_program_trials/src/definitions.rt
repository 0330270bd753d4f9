// The definitions over which inputs are served.

/// The example definition.
const TOYS: &str = r#"[]
module BASIC
  hooked-sort SortBool{} [hook{}("BOOL.Bool"), hasDomainValues{}()]
  hooked-sort SortInt{} [hook{}("INT.Int"), hasDomainValues{}()]
  symbol inj{From, To}(From) : To [sortInjection{}()]
  hooked-symbol Lbladd{}(SortInt{}, SortInt{}) : SortInt{} [hook{}("INT.add"), function{}()]
  hooked-symbol Lblsub{}(SortInt{}, SortInt{}) : SortInt{} [hook{}("INT.sub"), function{}()]
  hooked-symbol Lblmul{}(SortInt{}, SortInt{}) : SortInt{} [hook{}("INT.mul"), function{}()]
  hooked-symbol Lbleq{}(SortInt{}, SortInt{}) : SortBool{} [hook{}("INT.eq"), function{}()]
  hooked-symbol Lblgt{}(SortInt{}, SortInt{}) : SortBool{} [hook{}("INT.gt"), function{}()]
  hooked-symbol Lblge{}(SortInt{}, SortInt{}) : SortBool{} [hook{}("INT.ge"), function{}()]
  hooked-symbol Lbllt{}(SortInt{}, SortInt{}) : SortBool{} [hook{}("INT.lt"), function{}()]
  hooked-symbol Lblle{}(SortInt{}, SortInt{}) : SortBool{} [hook{}("INT.le"), function{}()]
endmodule []
module TOYS
  import BASIC []
  sort SortS{} []
  sort SortP{} []
  sort SortE{} []
  symbol Lblpa{}() : SortP{} [constructor{}()]
  symbol Lblpb{}() : SortP{} [constructor{}()]
  symbol Lblpc{}() : SortP{} [constructor{}()]
  symbol Lblnil{}() : SortE{} [constructor{}()]
  symbol Lblcount{}(SortInt{}) : SortS{} [constructor{}()]
  symbol Lbldone{}() : SortS{} [constructor{}()]
  symbol Lblpick{}(SortP{}) : SortS{} [constructor{}()]
  symbol Lblnum{}(SortE{}) : SortS{} [constructor{}()]
  symbol Lblsq{}(SortInt{}) : SortS{} [constructor{}()]
  symbol Lblup{}(SortInt{}) : SortS{} [constructor{}()]
  symbol Lblodd{}(SortInt{}) : SortS{} [constructor{}()]
  symbol Lbllone{}() : SortS{} [constructor{}()]
  symbol Lblgoal{}() : SortS{} [constructor{}()]
  symbol Lblloop{}() : SortS{} [constructor{}()]
  symbol Lblvf{}(SortInt{}) : SortS{} [constructor{}()]
  symbol Lblvg{}() : SortS{} [constructor{}()]
  symbol Lblvh{}(SortInt{}) : SortS{} [constructor{}()]
  symbol Lblother{}(SortInt{}) : SortInt{} [function{}()]
  axiom{R} \exists{R}(Val:SortE{}, \equals{SortE{}, R}(Val:SortE{}, inj{SortInt{}, SortE{}}(From:SortInt{}))) [subsort{SortInt{}, SortE{}}()]
  axiom{} \rewrites{SortS{}}(\and{SortS{}}(Lblcount{}(N:SortInt{}), \equals{SortBool{}, SortS{}}(Lblgt{}(N:SortInt{}, \dv{SortInt{}}("0")), \dv{SortBool{}}("true"))), Lblcount{}(Lblsub{}(N:SortInt{}, \dv{SortInt{}}("1")))) [label{}("TOYS.dec")]
  axiom{} \rewrites{SortS{}}(\and{SortS{}}(Lblcount{}(N:SortInt{}), \equals{SortBool{}, SortS{}}(Lbleq{}(N:SortInt{}, \dv{SortInt{}}("0")), \dv{SortBool{}}("true"))), Lbldone{}()) [label{}("TOYS.stop")]
  axiom{} \rewrites{SortS{}}(Lblpick{}(Lblpa{}()), Lbldone{}()) [label{}("TOYS.pick")]
  axiom{} \rewrites{SortS{}}(Lblnum{}(inj{SortInt{}, SortE{}}(N:SortInt{})), Lbldone{}()) [label{}("TOYS.num")]
  axiom{} \rewrites{SortS{}}(\and{SortS{}}(Lblsq{}(N:SortInt{}), \equals{SortBool{}, SortS{}}(Lbllt{}(Lblmul{}(N:SortInt{}, N:SortInt{}), \dv{SortInt{}}("0")), \dv{SortBool{}}("true"))), Lbldone{}()) [label{}("TOYS.sq")]
  axiom{} \rewrites{SortS{}}(Lblup{}(N:SortInt{}), Lblup{}(Lbladd{}(N:SortInt{}, \dv{SortInt{}}("1")))) [label{}("TOYS.up")]
  axiom{} \rewrites{SortS{}}(Lblodd{}(N:SortInt{}), Lblodd{}(Lblother{}(N:SortInt{}))) [label{}("TOYS.odd")]
  axiom{} \rewrites{SortS{}}(Lblloop{}(), Lblloop{}()) [label{}("TOYS.spin")]
  axiom{} \rewrites{SortS{}}(Lblvf{}(N:SortInt{}), Lblvg{}()) [label{}("TOYS.van")]
  axiom{} \rewrites{SortS{}}(Lblvg{}(), Lblvh{}(Y:SortInt{})) [label{}("TOYS.back")]
endmodule []
"#;

/// A rule of priority 40 and one for the rest, a rule that ensures a condition, and one whose left term has two constructors.
const CHOICES: &str = r#"[]
module CHOICES
  hooked-sort SortBool{} [hook{}("BOOL.Bool")]
  hooked-sort SortInt{} [hook{}("INT.Int")]
  sort SortP{} []
  sort SortS{} []
  hooked-symbol Lblgt{}(SortInt{}, SortInt{}) : SortBool{} [hook{}("INT.gt")]
  symbol Lblpa{}() : SortP{} [constructor{}()]
  symbol Lblpb{}() : SortP{} [constructor{}()]
  symbol Lblask{}() : SortS{} [constructor{}()]
  symbol Lblgrade{}(SortInt{}) : SortS{} [constructor{}()]
  symbol Lblhigh{}() : SortS{} [constructor{}()]
  symbol Lbllow{}() : SortS{} [constructor{}()]
  symbol Lblpair{}(SortP{}, SortP{}) : SortS{} [constructor{}()]
  axiom{} \rewrites{SortS{}}(Lblgrade{}(N:SortInt{}), Lbllow{}()) [label{}("low"), owise{}()]
  axiom{} \rewrites{SortS{}}(\and{SortS{}}(Lblgrade{}(N:SortInt{}), \equals{SortBool{}, SortS{}}(Lblgt{}(N:SortInt{}, \dv{SortInt{}}("5")), \dv{SortBool{}}("true"))), Lblhigh{}()) [label{}("high"), priority{}("40")]
  axiom{} \rewrites{SortS{}}(Lblask{}(), \and{SortS{}}(Lblgrade{}(Y:SortInt{}), \equals{SortBool{}, SortS{}}(Lblgt{}(Y:SortInt{}, \dv{SortInt{}}("3")), \dv{SortBool{}}("true")))) [label{}("ask")]
  axiom{} \rewrites{SortS{}}(Lblpair{}(Lblpa{}(), Lblpb{}()), Lblhigh{}()) [label{}("pair")]
endmodule []
"#;

/// Foreign rules with one name at a sort and one above it, and at two sorts above one; a sort of tokens below two others.
const TWICE: &str = r#"[]
module TWICE
  sort SortId{} [hasDomainValues{}(), token{}()]
  sort SortName{} [hasDomainValues{}(), token{}()]
  sort SortTag{} [hasDomainValues{}(), token{}()]
  sort SortS{} []
  axiom{R} \exists{R}(Val:SortName{}, \equals{SortName{}, R}(Val:SortName{}, inj{SortId{}, SortName{}}(From:SortId{}))) [subsort{SortId{}, SortName{}}()]
  axiom{R} \exists{R}(Val:SortTag{}, \equals{SortTag{}, R}(Val:SortTag{}, inj{SortId{}, SortTag{}}(From:SortId{}))) [subsort{SortId{}, SortTag{}}()]
  symbol inj{From, To}(From) : To [sortInjection{}()]
  symbol Lblg{}(SortId{}, SortName{}) : SortS{} [constructor{}()]
  symbol Lblh{}(SortName{}, SortTag{}) : SortS{} [constructor{}()]
  symbol Lbldone{}() : SortS{} [constructor{}()]
  symbol Lblother{}(SortName{}) : SortS{} [function{}()]
  axiom{} \rewrites{SortS{}}(Lblg{}(X:SortId{}, X:SortName{}), Lblother{}(X:SortName{})) [label{}("below")]
  axiom{} \rewrites{SortS{}}(Lblh{}(X:SortName{}, X:SortTag{}), Lblother{}(X:SortName{})) [label{}("beside")]
  axiom{} \rewrites{SortS{}}(Lblg{}(X:SortId{}, Y:SortName{}), Lbldone{}()) [label{}("goes")]
  axiom{} \rewrites{SortS{}}(Lblh{}(X:SortName{}, Y:SortTag{}), Lbldone{}()) [label{}("goes.on")]
endmodule []
"#;

/// A rule that is read and a foreign one with the same left side, in which two names stand three times each; a call of two numbers.
const REPEATED: &str = r#"[]
module REPEATED
  hooked-sort SortInt{} [hook{}("INT.Int"), hasDomainValues{}()]
  sort SortS{} []
  hooked-symbol Lblmul{}(SortInt{}, SortInt{}) : SortInt{} [hook{}("INT.mul"), function{}()]
  symbol Lblg{}(SortInt{}, SortInt{}, SortInt{}, SortInt{}, SortInt{}, SortInt{}) : SortS{} [constructor{}()]
  symbol Lblh{}(SortInt{}, SortInt{}, SortInt{}, SortInt{}, SortInt{}, SortInt{}) : SortS{} [constructor{}()]
  symbol Lbldone{}() : SortS{} [constructor{}()]
  symbol Lblother{}(SortInt{}) : SortS{} [function{}()]
  axiom{} \rewrites{SortS{}}(Lblg{}(L:SortInt{}, L:SortInt{}, L:SortInt{}, M:SortInt{}, M:SortInt{}, M:SortInt{}), Lbldone{}()) [label{}("read")]
  axiom{} \rewrites{SortS{}}(Lblh{}(L:SortInt{}, L:SortInt{}, L:SortInt{}, M:SortInt{}, M:SortInt{}, M:SortInt{}), Lblother{}(L:SortInt{})) [label{}("foreign")]
endmodule []
"#;

/// A rule whose left side has nine names twice each, so that a chain of equalities may follow.
const CHAINED: &str = r#"[]
module CHAINED
  hooked-sort SortInt{} [hook{}("INT.Int"), hasDomainValues{}()]
  sort SortS{} []
  hooked-symbol Lblmul{}(SortInt{}, SortInt{}) : SortInt{} [hook{}("INT.mul"), function{}()]
  symbol Lblk{}(SortInt{}, SortInt{}, SortInt{}, SortInt{}, SortInt{}, SortInt{}, SortInt{}, SortInt{}, SortInt{}, SortInt{}, SortInt{}, SortInt{}, SortInt{}, SortInt{}, SortInt{}, SortInt{}, SortInt{}, SortInt{}) : SortS{} [constructor{}()]
  symbol Lbldone{}() : SortS{} [constructor{}()]
  axiom{} \rewrites{SortS{}}(Lblk{}(A:SortInt{}, A:SortInt{}, B:SortInt{}, B:SortInt{}, C:SortInt{}, C:SortInt{}, D:SortInt{}, D:SortInt{}, E:SortInt{}, E:SortInt{}, F:SortInt{}, F:SortInt{}, G:SortInt{}, G:SortInt{}, H:SortInt{}, H:SortInt{}, K:SortInt{}, K:SortInt{}), Lbldone{}()) [label{}("read")]
endmodule []
"#;

/// Two sorts above the same two sorts, no one of which has all that is in both; a rule's left term is a variable of the one.
const LONE: &str = r#"[]
module LONE
  sort SortP{} []
  sort SortQ{} []
  sort SortD{} []
  sort SortE{} []
  axiom{R} \exists{R}(Val:SortP{}, \equals{SortP{}, R}(Val:SortP{}, inj{SortD{}, SortP{}}(From:SortD{}))) [subsort{SortD{}, SortP{}}()]
  axiom{R} \exists{R}(Val:SortP{}, \equals{SortP{}, R}(Val:SortP{}, inj{SortE{}, SortP{}}(From:SortE{}))) [subsort{SortE{}, SortP{}}()]
  axiom{R} \exists{R}(Val:SortQ{}, \equals{SortQ{}, R}(Val:SortQ{}, inj{SortD{}, SortQ{}}(From:SortD{}))) [subsort{SortD{}, SortQ{}}()]
  axiom{R} \exists{R}(Val:SortQ{}, \equals{SortQ{}, R}(Val:SortQ{}, inj{SortE{}, SortQ{}}(From:SortE{}))) [subsort{SortE{}, SortQ{}}()]
  symbol inj{From, To}(From) : To [sortInjection{}()]
  symbol Lbld{}() : SortD{} [constructor{}()]
  symbol Lble{}() : SortE{} [constructor{}()]
  symbol Lblq{}() : SortQ{} [constructor{}()]
  axiom{} \rewrites{SortQ{}}(Y:SortQ{}, Lblq{}()) [label{}("LONE.q")]
endmodule []
"#;

/// Whole numbers with their calls, two sorts with constructors, and a foreign symbol.
const NUMBERS: &str = r#"[]
module TOYS
  hooked-sort SortBool{} [hook{}("BOOL.Bool")]
  hooked-sort SortInt{} [hook{}("INT.Int")]
  sort SortS{} []
  sort SortP{} []
  hooked-symbol Lbladd{}(SortInt{}, SortInt{}) : SortInt{} [hook{}("INT.add")]
  hooked-symbol Lblsub{}(SortInt{}, SortInt{}) : SortInt{} [hook{}("INT.sub")]
  hooked-symbol Lblmul{}(SortInt{}, SortInt{}) : SortInt{} [hook{}("INT.mul")]
  hooked-symbol Lblgt{}(SortInt{}, SortInt{}) : SortBool{} [hook{}("INT.gt")]
  hooked-symbol Lbllt{}(SortInt{}, SortInt{}) : SortBool{} [hook{}("INT.lt")]
  hooked-symbol Lblle{}(SortInt{}, SortInt{}) : SortBool{} [hook{}("INT.le")]
  symbol inj{From, To}(From) : To [sortInjection{}()]
  symbol Lblother{}(SortInt{}) : SortInt{} []
  symbol Lblpa{}() : SortP{} [constructor{}()]
  symbol Lblpb{}() : SortP{} [constructor{}()]
  symbol Lblcount{}(SortInt{}) : SortS{} [constructor{}()]
  symbol Lblpick{}(SortP{}) : SortS{} [constructor{}()]
  symbol Lbldone{}() : SortS{} [constructor{}()]
endmodule []
"#;

/// Rules that count down and choose by priority, in a module that two others import, with a foreign symbol beside them; a
/// foreign rule beside one whose condition doubles its number.
const COUNTING: &str = r#"[]
module BASE
  hooked-sort SortBool{} [hook{}("BOOL.Bool")]
  hooked-sort SortInt{} [hook{}("INT.Int")]
  hooked-symbol Lbladd{}(SortInt{}, SortInt{}) : SortInt{} [hook{}("INT.add")]
  hooked-symbol Lblsub{}(SortInt{}, SortInt{}) : SortInt{} [hook{}("INT.sub")]
  hooked-symbol Lblgt{}(SortInt{}, SortInt{}) : SortBool{} [hook{}("INT.gt")]
  sort SortS{} []
  symbol Lblcount{}(SortInt{}) : SortS{} [constructor{}()]
  symbol Lblother{}(SortInt{}) : SortInt{} []
  symbol Lblodd{}(SortInt{}) : SortS{} [constructor{}()]
  symbol Lblpick{}(SortInt{}) : SortS{} [constructor{}()]
  symbol Lblpicked{}(SortInt{}) : SortS{} [constructor{}()]
  symbol Lbldone{}() : SortS{} [constructor{}()]
  symbol Lblgoal{}() : SortS{} [constructor{}()]
  axiom{} \rewrites{SortS{}}(\and{SortS{}}(Lblcount{}(N:SortInt{}), \equals{SortBool{}, SortS{}}(Lblgt{}(N:SortInt{}, \dv{SortInt{}}("0")), \dv{SortBool{}}("true"))), Lblcount{}(Lblsub{}(N:SortInt{}, \dv{SortInt{}}("1")))) [label{}("dec")]
  axiom{} \rewrites{SortS{}}(Lblodd{}(N:SortInt{}), Lblodd{}(Lblother{}(N:SortInt{}))) [label{}("odd")]
  axiom{} \rewrites{SortS{}}(\and{SortS{}}(Lblodd{}(N:SortInt{}), \equals{SortBool{}, SortS{}}(Lblgt{}(Lbladd{}(N:SortInt{}, N:SortInt{}), \dv{SortInt{}}("0")), \dv{SortBool{}}("true"))), Lblpicked{}(N:SortInt{})) [label{}("double")]
endmodule []
module LEFT
  import BASE []
  axiom{} \rewrites{SortS{}}(Lblpick{}(N:SortInt{}), Lblpicked{}(\dv{SortInt{}}("3"))) [owise{}()]
  axiom{} \rewrites{SortS{}}(\and{SortS{}}(Lblpick{}(N:SortInt{}), \equals{SortBool{}, SortS{}}(Lblgt{}(N:SortInt{}, \dv{SortInt{}}("2")), \dv{SortBool{}}("true"))), Lblpicked{}(\dv{SortInt{}}("2"))) []
endmodule []
module RIGHT
  import BASE []
  axiom{} \rewrites{SortS{}}(\and{SortS{}}(Lblpick{}(N:SortInt{}), \equals{SortBool{}, SortS{}}(Lblgt{}(N:SortInt{}, \dv{SortInt{}}("5")), \dv{SortBool{}}("true"))), Lblpicked{}(\dv{SortInt{}}("1"))) [priority{}("10")]
endmodule []
module COUNTING
  import LEFT []
  import RIGHT []
endmodule []
"#;

/// One sort, two constructors and a rule with a label.
const SMALL: &str = r#"[]
module TOYS
  sort SortS{} []
  symbol LblOne{}() : SortS{} [constructor{}()]
  symbol LblTwo{}() : SortS{} [constructor{}()]
  axiom{} \rewrites{SortS{}}(LblOne{}(), LblTwo{}()) [label{}("TOYS.go")]
endmodule []
"#;

/// Five constructors, and a rule with a label from the first to the second.
const FAN: &str = r#"[]
module TOYS
  sort SortS{} []
  symbol LblOne{}() : SortS{} [constructor{}()]
  symbol LblTwo{}() : SortS{} [constructor{}()]
  symbol LblA{}() : SortS{} [constructor{}()]
  symbol LblB{}() : SortS{} [constructor{}()]
  symbol LblC{}() : SortS{} [constructor{}()]
  axiom{} \rewrites{SortS{}}(LblOne{}(), LblTwo{}()) [label{}("TOYS.go")]
endmodule []
"#;

/// Main reaches A before B, and X reaches B before A; a label stands in A and in main. Main doesn't reach Y.
const CROSSED: &str = r#"[]
module SORTS
  sort SortS{} []
  symbol LblOne{}() : SortS{} [constructor{}()]
  symbol LblA{}() : SortS{} [constructor{}()]
  symbol LblB{}() : SortS{} [constructor{}()]
  symbol LblX{}() : SortS{} [constructor{}()]
  symbol LblMain{}() : SortS{} [constructor{}()]
endmodule []
module A
  import SORTS []
  axiom{} \rewrites{SortS{}}(LblOne{}(), LblA{}()) [label{}("go")]
endmodule []
module B
  import SORTS []
  axiom{} \rewrites{SortS{}}(LblOne{}(), LblB{}()) []
endmodule []
module X
  import B []
  import A []
  axiom{} \rewrites{SortS{}}(LblOne{}(), LblX{}()) []
endmodule []
module MAIN
  import A []
  import X []
  axiom{} \rewrites{SortS{}}(LblOne{}(), LblMain{}()) [label{}("go")]
endmodule []
module Y
endmodule []
"#;

/// A definition over which inputs are served.
#[derive(Clone, Copy)]
pub(crate) enum Asked {
    /// The example definition.
    Toys,
    /// The one with rules of two priorities.
    Choices,
    /// The one with a rule whose left term is a variable.
    Lone,
    /// The one with foreign rules that have one name at two sorts.
    Twice,
    /// The one with rules whose left sides have two names three times each.
    Repeated,
    /// The one with nine names twice each.
    Chained,
    /// The one with calls on whole numbers.
    Numbers,
    /// The one whose main module imports the rules that count down and choose.
    Counting,
    /// The one with two constructors.
    Small,
    /// The one with five constructors.
    Fan,
    /// The one whose modules are reached in two orders.
    Crossed,
}

/// The name of a definition's main module, and its text.
pub(crate) fn definition_of(asked: Asked) -> (&'static str, &'static str) {
    match asked {
        Asked::Toys => ("TOYS", TOYS),
        Asked::Choices => ("CHOICES", CHOICES),
        Asked::Lone => ("LONE", LONE),
        Asked::Twice => ("TWICE", TWICE),
        Asked::Repeated => ("REPEATED", REPEATED),
        Asked::Chained => ("CHAINED", CHAINED),
        Asked::Numbers => ("TOYS", NUMBERS),
        Asked::Counting => ("COUNTING", COUNTING),
        Asked::Small => ("TOYS", SMALL),
        Asked::Fan => ("TOYS", FAN),
        Asked::Crossed => ("MAIN", CROSSED),
    }
}
