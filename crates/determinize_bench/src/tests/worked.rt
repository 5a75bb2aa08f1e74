//! Single calls whose results were worked out by hand.

/// Single calls, each before the lines of its output.
pub const CALLS: &str = "\
> dead
000000000000000000
> start dir=fwd hay=- range=1..0
kind Text -
> start dir=rev hay=- range=1..0
kind Text -
> start dir=fwd hay=- range=0..0
kind Text -
> start dir=rev hay=- range=0..0
kind Text -
> start dir=fwd hay=616263 range=0..3
kind Text -
> start dir=rev hay=616263 range=0..3
kind Text -
> start dir=fwd hay=0a616263 range=0..3
kind Text -
> start dir=fwd hay=0a616263 range=1..3
kind LineLF 0a
> start dir=fwd hay=0d616263 range=1..3
kind LineCR 0d
> start dir=fwd hay=616263 range=1..3
kind WordByte 61
> start dir=fwd hay=20616263 range=1..3
kind NonWordByte 20
> start dir=rev hay=6162630a range=0..4
kind Text -
> start dir=rev hay=6162630a7a range=0..3
kind LineLF 0a
> start dir=rev hay=6162630d7a range=0..3
kind LineCR 0d
> start dir=rev hay=616263 range=0..2
kind WordByte 63
> start dir=rev hay=61626320 range=0..3
kind NonWordByte 20
> closure from=4 look=WordAscii held=5 | BU:4,1 B:00-ff>0 L:WordAscii>5 B:25>5 BU:2,3 BU:4,6 M:0
set 5,4,2,3
> closure from=0 | C:0
set 0
> closure from=0 | U:0
set 0
> closure from=0 | BU:0,0
set 0
> closure from=0 | U:1 U:0
set 0,1
> closure from=0 | BU:1,1 BU:0,0
set 0,1
> fromusize n=5
some CustomLineTerminator
> fromusize n=6
none
> fromusize n=0
some NonWordByte
> bytemap term=61 byte=61
61 CustomLineTerminator
> bytemap term=61 byte=62
62 WordByte
> bytemap term=61 byte=0a
0a LineLF
> bytemap term=0d byte=0d
0d LineCR
> bytemap term=0d byte=0a
0a LineLF
> lookbehind dir=fwd term=0a kind=NonWordByte | L:Start>1 L:StartLF>2 L:StartCRLF>3 L:WordAscii>4 M:0
000040010000000000
> lookbehind dir=fwd term=0a kind=NonWordByte | C:1 U:2,3,4 F S:61-63>5,78-78>5 D:62-62>5 M:0
000000000000000000
> lookbehind dir=fwd term=0a kind=WordByte | L:Start>1 L:StartLF>2 L:StartCRLF>3 L:WordAscii>4 M:0
040000000000000000
> lookbehind dir=fwd term=0a kind=WordByte | C:1 U:2,3,4 F S:61-63>5,78-78>5 D:62-62>5 M:0
000000000000000000
> lookbehind dir=fwd term=0a kind=Text | L:Start>1 L:StartLF>2 L:StartCRLF>3 L:WordAscii>4 M:0
001540010000000000
> lookbehind dir=fwd term=0a kind=Text | C:1 U:2,3,4 F S:61-63>5,78-78>5 D:62-62>5 M:0
000000000000000000
> lookbehind dir=fwd term=0a kind=LineLF | L:Start>1 L:StartLF>2 L:StartCRLF>3 L:WordAscii>4 M:0
001440010000000000
> lookbehind dir=fwd term=0a kind=LineLF | C:1 U:2,3,4 F S:61-63>5,78-78>5 D:62-62>5 M:0
000000000000000000
> lookbehind dir=rev term=0a kind=LineLF | L:Start>1 L:StartLF>2 L:StartCRLF>3 L:WordAscii>4 M:0
080440010000000000
> lookbehind dir=rev term=0a kind=LineLF | C:1 U:2,3,4 F S:61-63>5,78-78>5 D:62-62>5 M:0
000000000000000000
> lookbehind dir=rev term=78 kind=LineLF | L:Start>1 L:StartLF>2 L:StartCRLF>3 L:WordAscii>4 M:0
080040010000000000
> lookbehind dir=rev term=78 kind=LineLF | C:1 U:2,3,4 F S:61-63>5,78-78>5 D:62-62>5 M:0
000000000000000000
> lookbehind dir=fwd term=0a kind=LineCR | L:Start>1 L:StartLF>2 L:StartCRLF>3 L:WordAscii>4 M:0
080040010000000000
> lookbehind dir=fwd term=0a kind=LineCR | C:1 U:2,3,4 F S:61-63>5,78-78>5 D:62-62>5 M:0
000000000000000000
> lookbehind dir=rev term=0a kind=LineCR | L:Start>1 L:StartLF>2 L:StartCRLF>3 L:WordAscii>4 M:0
001040010000000000
> lookbehind dir=rev term=0a kind=LineCR | C:1 U:2,3,4 F S:61-63>5,78-78>5 D:62-62>5 M:0
000000000000000000
> lookbehind dir=fwd term=0d kind=LineCR | L:Start>1 L:StartLF>2 L:StartCRLF>3 L:WordAscii>4 M:0
080440010000000000
> lookbehind dir=fwd term=0d kind=LineCR | C:1 U:2,3,4 F S:61-63>5,78-78>5 D:62-62>5 M:0
000000000000000000
> lookbehind dir=fwd term=61 kind=CustomLineTerminator | L:Start>1 L:StartLF>2 L:StartCRLF>3 L:WordAscii>4 M:0
040400000000000000
> lookbehind dir=fwd term=61 kind=CustomLineTerminator | C:1 U:2,3,4 F S:61-63>5,78-78>5 D:62-62>5 M:0
000000000000000000
> lookbehind dir=fwd term=3b kind=CustomLineTerminator | L:Start>1 L:StartLF>2 L:StartCRLF>3 L:WordAscii>4 M:0
000440010000000000
> lookbehind dir=fwd term=3b kind=CustomLineTerminator | C:1 U:2,3,4 F S:61-63>5,78-78>5 D:62-62>5 M:0
000000000000000000
> readers at=1 | U:1,2,3 M:2 M:0 M:1
match=1 len=3 pids=2,0,1 usage=25
fw=0 half=0 have=- need=-
ids=-
> next kind=all fw=0 half=0 pids=- ids=- unit=61 | L:WordAscii>1 S:30-39>2,41-5a>2,5f-5f>2,61-7a>2 BU:1,3 L:WordAscii>4 M:0
000000000000000000
> next kind=all fw=0 half=0 pids=- ids=- unit=eoi | L:WordAscii>1 S:30-39>2,41-5a>2,5f-5f>2,61-7a>2 BU:1,3 L:WordAscii>4 M:0
000000000000000000
> addstates fw=0 half=0 pids=- ids=- set=0,1,5 | C:1 U:2,3,4 F S:61-63>5,78-78>5 D:62-62>5 M:0
0000000000000000000208
> build fw=0 half=0
000000000000000000
match=0 len=0 pids=none usage=9
fw=0 half=0 have=- need=-
ids=-
> build fw=1 half=1 have=WordStartHalfAscii need=WordAscii
0c0040000040000000
match=0 len=0 pids=none usage=9
fw=1 half=1 have=WordStartHalfAscii need=WordAscii
ids=-
> build fw=0 half=0 ids=2147483646,0
000000000000000000fcffffff0ffbffffff0f
match=0 len=0 pids=none usage=19
fw=0 half=0 have=- need=-
ids=2147483646,0
> build fw=0 half=0 ids=300
000000000000000000d804
match=0 len=0 pids=none usage=11
fw=0 half=0 have=- need=-
ids=300
> build fw=0 half=0 ids=8,0
000000000000000000100f
match=0 len=0 pids=none usage=11
fw=0 half=0 have=- need=-
ids=8,0
> build fw=0 half=0 pids=0,2
030000000000000000020000000000000002000000
match=1 len=2 pids=0,2 usage=21
fw=0 half=0 have=- need=-
ids=-
> build fw=0 half=0 pids=1,0
030000000000000000020000000100000000000000
match=1 len=2 pids=1,0 usage=21
fw=0 half=0 have=- need=-
ids=-
> build fw=0 half=0 pids=0
010000000000000000
match=1 len=1 pids=0 usage=9
fw=0 half=0 have=- need=-
ids=-
> closure from=0 | S:61-66>0,67-6b>0
set 0
> closure from=1 | S: U:
set 1
> closure from=2 | M:0 F M:1
set 2
> walk id=1 fix=0 kind=all start=0 dir=fwd term=0a lb=- text=61 after=- | B:61>1 M:0
00000000000000000000
00000000000000000002
010000000000000000
match 0 1
> readers at=1 id=2 kind=all start=0 dir=fwd term=0a lb=- text=- after=- | U:1,2,3 M:2 M:0 M:1
match=1 len=3 pids=2,0,1 usage=25
fw=0 half=0 have=- need=-
ids=-
> closure id=3 dir=fwd term=0a from=4 look=WordAscii held=5 | BU:4,1 B:00-ff>0 L:WordAscii>5 B:25>5 BU:2,3 BU:4,6 M:0
set 5,4,2,3
> bytemap term=61 byte=61 id=4
61 CustomLineTerminator
> fromusize fix=0 n=5
some CustomLineTerminator
> dead id=5 fix=0
000000000000000000
> build id=6 fw=0 half=0 have=- need=- pids=- ids=1,3,2
000000000000000000020401
match=0 len=0 pids=none usage=12
fw=0 half=0 have=- need=-
ids=1,3,2
> size id=7 states=3 matches=2
states 3
> closure from=0 | U:1,2,3 M:2 M:0 M:1
set 0,1,2,3
> closure from=0 | BU:4,1 B:00-ff>0 L:WordAscii>5 B:25>5 BU:2,3 BU:4,6 M:0
set 0,4,2,3,1
> closure from=4 | BU:4,1 B:00-ff>0 L:WordAscii>5 B:25>5 BU:2,3 BU:4,6 M:0
set 4,2,3
> closure from=0 | BU:2,1 B:00-ff>0 U:3,6 B:61-7a>4 BU:3,5 M:0 B:30-39>7 BU:6,8 M:1
set 0,2,3,6,1
";
