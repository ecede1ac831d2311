use command_trials::{Verdict, verdict_of};
use std::alloc::Global;

// The cases stand here, and not in the scripts of `trials`, since the program that Rattle's own compiler builds takes more of the stack than
// main's has.
const SCRIPT: &str = r#"Patterns and conditions at the limit of open parts, and beyond it.
%% an empty graph
+ g
%% 2048 braces are open, and the text ends
dbrdf sparql g p
+ p
SELECT DISTINCT ?a WHERE <2048*{><>
! 1 dbrdf: refused 47 BadPattern place 2074
%% 2048 braces are open, and a parenthesis is closed and opened
dbrdf sparql g p
+ p
SELECT DISTINCT ?a WHERE <2048*{>)(<>
! 1 dbrdf: refused 47 BadPattern place 2074
%% a 2049th brace
dbrdf sparql g p
+ p
SELECT DISTINCT ?a WHERE <2049*{><>
! 1 dbrdf: refused 48 TooNested place 2074
%% a parenthesis as the 2049th
dbrdf sparql g p
+ p
SELECT DISTINCT ?a WHERE <2048*{>(<>
! 1 dbrdf: refused 48 TooNested place 2074
%% patterns with 2048 open braces
dbrdf sparql g p1
dbrdf sparql g p2
dbrdf sparql g p3
dbrdf sparql g p4
dbrdf sparql g p5
dbrdf sparql g p6
+ p1
SELECT DISTINCT ?a WHERE <2047*{{} >{}<2047*}><>
+ p2
SELECT DISTINCT ?a WHERE <2047*{{}UNION>{}<2047*}><>
+ p3
SELECT DISTINCT ?a WHERE <2047*{{}MINUS>{}<2047*}><>
+ p4
SELECT DISTINCT ?a WHERE <2047*{>{}<2047*{}}><>
+ p5
SELECT DISTINCT ?a WHERE <2047*{SELECT ?a WHERE>{}<2047*}><>
+ p6
SELECT DISTINCT ?a WHERE <1023*{{}OPTIONAL{>{}<1023*}}><>
= 0
?a

%% conditions with 2048 open braces and parentheses
dbrdf sparql g p1
dbrdf sparql g p2
dbrdf sparql g p3
+ p1
SELECT DISTINCT ?a WHERE {{}FILTER(<2046*(!>true<2046*)>)}<>
+ p2
SELECT DISTINCT ?a WHERE {{}FILTER(<2046*(true&&>true<2046*)>)}<>
+ p3
SELECT DISTINCT ?a WHERE {{}FILTER(<2046*(>true<2046*||true)>)}<>
= 0
?a

%% 2049 open parts that are closed
dbrdf sparql g p
+ p
SELECT DISTINCT ?a WHERE <2049*{><2049*}>
= 1
! dbrdf: refused 48 TooNested place 2074
"#;

fn are_held(alloc: Global) -> bool {
    match verdict_of(alloc, SCRIPT) {
        Some(Verdict::Held(count)) => count == 7,
        _ => false,
    }
}

#[test]
fn deep_patterns(rt: HostRuntime) {
    let found = are_held(rt.alloc());
    assert!(rt; found);
}
