//! Queries over tables of one owner, who asks them: the plan without seals gives the answer.
ghost use Rattle.std.specs.Prelude.{◌≡◌, IfOk};
ghost use Rattle.outside_io.specs.Outside.{HasDistinctNames};

use crate::planned::between;
use crate::tests::{RUN, joined, ran};
use mq_base::{NoMemory, Seq, Text};
use outside_memory::MemorySink;
use planner_cli::Status;
use std::alloc::Global;
use std::process::Abort;
use std::test::Fail;

// How each policy begins: U owns each table, is the only subject, and asks.
const POLICY: &str = "version = 1\nuser = 'U'\nsubjects = ['U']\n";

// How each file of prices begins.
const PRICES: &str = "version = 1\n[cpu]\nU = 1\n[net]\ndefault = 1\n";

// The end of a policy, the end of its prices, a query, the files of the tables that it names, and the answer.
struct Row<'a> {
    policy: &'a str,
    prices: &'a str,
    query: &'a str,
    tables: &'a [(&'a str, &'a str)],
    answer: &'a str,
}

// Forty queries over one to three tables, with their answers. The texts are spelled in many ways: words in small and capital letters,
// numbers with leading zeros, quoted cells, blank lines, byte order marks, and each of the ends of a line.
const ROWS: [Row; 40] = [
    Row {
        policy: "[[table]]\nname = 's'\nowner = 'U'\ncolumns = [{ name = 'e', type = 'TEXT' }, { name = 'A', type = 'INT' }]\n[[table]]\nname = 'any'\nowner = 'U'\ncolumns = [{ name = 'sums', type = 'INT' }, { name = 'i', type = 'INT' }]\n",
        prices: "[rows]\ns = 1\nany = 1\n[distinct]\ne = 1\nA = 1\nsums = 1\ni = 1\n",
        query: "seLect s.e,e from any joiN s on i=A WHERE sums!=1;",
        tables: &[
            ("s.csv", "e,A\na\0,1\ncount,0\ncount,2\na\0,2\nZ,1\n"),
            (
                "any.csv",
                "sums,i\n2,1\n01,1\n2,2\n01,2\n1,2\n1,2\n02,1\n\n1,2\n",
            ),
        ],
        answer: "answer\ne,e\nZ,Z\nZ,Z\na\0,a\0\na\0,a\0\na\0,a\0\ncount,count\n",
    },
    Row {
        policy: "[[table]]\nname = 'any'\nowner = 'U'\ncolumns = [{ name = 'd', type = 'INT' }, { name = 'j', type = 'INT' }, { name = 'LLLLLLLLLLLLLLLLLLLLLLLLLLLLLLLL', type = 'INT' }]\n",
        prices: "[rows]\nany = 1\n[distinct]\nd = 1\nj = 1\nLLLLLLLLLLLLLLLLLLLLLLLLLLLLLLLL = 1\n",
        query: "select MAX(d) FROM any whERE LLLLLLLLLLLLLLLLLLLLLLLLLLLLLLLL!=9223372036854775807 group by j",
        tables: &[(
            "any.csv",
            "d,j,LLLLLLLLLLLLLLLLLLLLLLLLLLLLLLLL\r\n2,4611686018427387904,2\r\n-2,0,2\r\n-2,10,2\r\n-2,10,2\r\n",
        )],
        answer: "answer\nd\n-2\n-2\n2\n",
    },
    Row {
        policy: "[[table]]\nname = 't'\nowner = 'U'\ncolumns = [{ name = 'index', type = 'INT' }, { name = 'a', type = 'INT' }]\n[[table]]\nname = 'r'\nowner = 'U'\ncolumns = [{ name = 'k', type = 'TEXT' }, { name = 'value', type = 'TEXT' }]\n",
        prices: "[rows]\nt = 1\nr = 1\n[distinct]\nindex = 1\na = 1\nk = 1\nvalue = 1\n",
        query: "SELECT r.value,index,t.a,k from r,t where value!='count'",
        tables: &[
            ("t.csv", "index,a\n2,2\n1,3\n2,2\n2,3\n2,3\n2,3\n"),
            ("r.csv", "k,value\na, x \na\0,y\na, x \na,\na, x \n"),
        ],
        answer: "answer\nvalue,index,a,k\n,1,3,a\n,2,2,a\n,2,2,a\n,2,3,a\n,2,3,a\n,2,3,a\n x ,1,3,a\n x ,1,3,a\n x ,1,3,a\n x ,2,2,a\n x ,2,2,a\n x ,2,2,a\n x ,2,2,a\n x ,2,2,a\n x ,2,2,a\n x ,2,3,a\n x ,2,3,a\n x ,2,3,a\n x ,2,3,a\n x ,2,3,a\n x ,2,3,a\n x ,2,3,a\n x ,2,3,a\n x ,2,3,a\ny,1,3,a\0\ny,2,2,a\0\ny,2,2,a\0\ny,2,3,a\0\ny,2,3,a\0\ny,2,3,a\0\n",
    },
    Row {
        policy: "[[table]]\nname = 's'\nowner = 'U'\ncolumns = [{ name = 'index', type = 'TEXT' }, { name = 'k', type = 'INT' }, { name = 'by_', type = 'INT' }, { name = 'd', type = 'TEXT' }]\n[[table]]\nname = 'QQQQQQQQQQQQQQQQQQQQQQQQQQQQQQQQ'\nowner = 'U'\ncolumns = [{ name = 'A', type = 'INT' }, { name = 'b', type = 'INT' }]\n",
        prices: "[rows]\ns = 1\nQQQQQQQQQQQQQQQQQQQQQQQQQQQQQQQQ = 1\n[distinct]\nindex = 1\nk = 1\nby_ = 1\nd = 1\nA = 1\nb = 1\n",
        query: "\nSELECT QQQQQQQQQQQQQQQQQQQQQQQQQQQQQQQQ.\r\n b\t,b\nfrOm\ts,\tQQQQQQQQQQQQQQQQQQQQQQQQQQQQQQQQ\nWHERE\nb=10 ",
        tables: &[
            (
                "s.csv",
                "index,k,by_,d\r\n😀,2,-1,\r\n😀,2,-1,\r\n😀,2,-1,\r\n",
            ),
            (
                "QQQQQQQQQQQQQQQQQQQQQQQQQQQQQQQQ.csv",
                "A,b\r\n\"3\",10\r\n3,-1\r\n3,10\r\n03,-1\r\n\"3\",-1\r\n3,-1\r\n3,10\r\n3,10",
            ),
        ],
        answer: "answer\nb,b\n10,10\n10,10\n10,10\n10,10\n10,10\n10,10\n10,10\n10,10\n10,10\n10,10\n10,10\n10,10\n",
    },
    Row {
        policy: "[[table]]\nname = 'r'\nowner = 'U'\ncolumns = [{ name = 'a', type = 'INT' }, { name = 'ax0', type = 'INT' }]\n[[table]]\nname = 's'\nowner = 'U'\ncolumns = [{ name = 'cx0', type = 'INT' }, { name = 'c', type = 'INT' }]\n",
        prices: "[rows]\nr = 1\ns = 1\n[distinct]\na = 1\nax0 = 1\ncx0 = 1\nc = 1\n",
        query: "select\nr.\nax0\nFROM\nr  jOin s on c=r.a",
        tables: &[
            (
                "r.csv",
                "a,ax0\n\"2\",1\n2,\"1\"\n\"2\",1\n\"2\",1\n\"02\",01\n2,01\n2,1\n\"2\",1\n",
            ),
            (
                "s.csv",
                "cx0,\"c\"\r\n1,2\r\n1,2\r\n1,\"2\"\r\n\r\n1,\"02\"\r\n01,2\r\n",
            ),
        ],
        answer: "answer\nax0\n1\n1\n1\n1\n1\n1\n1\n1\n1\n1\n1\n1\n1\n1\n1\n1\n1\n1\n1\n1\n1\n1\n1\n1\n1\n1\n1\n1\n1\n1\n1\n1\n1\n1\n1\n1\n1\n1\n1\n1\n",
    },
    Row {
        policy: "[[table]]\nname = 'any'\nowner = 'U'\ncolumns = [{ name = 'j', type = 'INT' }]\n",
        prices: "[rows]\nany = 1\n[distinct]\nj = 1\n",
        query: "SELECT j\nFROm\tany\tWHERE\nj\t<> 001 GRoUP by j",
        tables: &[(
            "any.csv",
            "\"j\"\n-2\n9223372036854775807\n\"2\"\n9223372036854775807",
        )],
        answer: "answer\nj\n-2\n2\n9223372036854775807\n",
    },
    Row {
        policy: "[[table]]\nname = 't'\nowner = 'U'\ncolumns = [{ name = 'f', type = 'TEXT' }, { name = 'j', type = 'INT' }, { name = 'a', type = 'TEXT' }]\n",
        prices: "[rows]\nt = 1\n[distinct]\nf = 1\nj = 1\na = 1\n",
        query: "SELECT a,j,j from t",
        tables: &[(
            "t.csv",
            "f,j,a\ra,-9223372036854775808,stroke\ra\0,-9223372036854775808,stroke\ra\0,-9223372036854775808,stroke\ra\0,-9223372036854775808,x\ra,-9223372036854775808,x\r",
        )],
        answer: "answer\na,j,j\nstroke,-9223372036854775808,-9223372036854775808\nstroke,-9223372036854775808,-9223372036854775808\nstroke,-9223372036854775808,-9223372036854775808\nx,-9223372036854775808,-9223372036854775808\nx,-9223372036854775808,-9223372036854775808\n",
    },
    Row {
        policy: "[[table]]\nname = 'order'\nowner = 'U'\ncolumns = [{ name = 'sums', type = 'INT' }, { name = 'value', type = 'TEXT' }, { name = 'd', type = 'TEXT' }]\n",
        prices: "[rows]\norder = 1\n[distinct]\nsums = 1\nvalue = 1\nd = 1\n",
        query: "SELECT sums,sums,d FROM order WHERE value>d;",
        tables: &[(
            "order.csv",
            "sums,value,d\n1,zz,-1\n1,zz,-1\n1,zz,-1\n1,zz,-1\n",
        )],
        answer: "answer\nsums,sums,d\n1,1,-1\n1,1,-1\n1,1,-1\n1,1,-1\n",
    },
    Row {
        policy: "[[table]]\nname = 'r'\nowner = 'U'\ncolumns = [{ name = 'a', type = 'INT' }, { name = 'ax0', type = 'TEXT' }]\n[[table]]\nname = 's'\nowner = 'U'\ncolumns = [{ name = 'cx0', type = 'INT' }, { name = 'c', type = 'INT' }]\n",
        prices: "[rows]\nr = 1\ns = 1\n[distinct]\na = 1\nax0 = 1\ncx0 = 1\nc = 1\n",
        query: "SElEct s.cx0,r.ax0 from r,s WHERE c=r.a;",
        tables: &[
            (
                "r.csv",
                "\r\"a\",ax0\r\r2,\"stroke\"\r-1,x\r-01,x\r-2,😀\r\"-01\",😀\r",
            ),
            ("s.csv", "cx0,c\r-1,-1\r\r\"2\",\"-01\""),
        ],
        answer: "answer\ncx0,ax0\n-1,x\n-1,x\n-1,😀\n2,x\n2,x\n2,😀\n",
    },
    Row {
        policy: "[[table]]\nname = '_u'\nowner = 'U'\ncolumns = [{ name = 'sums', type = 'INT' }, { name = 'g', type = 'INT' }, { name = 'c', type = 'INT' }]\n[[table]]\nname = 's'\nowner = 'U'\ncolumns = [{ name = 'f', type = 'INT' }]\n",
        prices: "[rows]\n_u = 1\ns = 1\n[distinct]\nsums = 1\ng = 1\nc = 1\nf = 1\n",
        query: "seLEcT _u.g,g,_u.g froM _u join s on f!=10 where f<=4611686018427387904 and sums<>f",
        tables: &[
            (
                "_u.csv",
                "sums,g,c\n-02,-09223372036854775808,10\n2,100,-02\n2,2,-02\n2,100,10\n",
            ),
            (
                "s.csv",
                "f\r\n0\r\n0\r\n0\r\n0\r\n0\r\n0\r\n4611686018427387904\r\n0\r\n",
            ),
        ],
        answer: "answer\ng,g,g\n-9223372036854775808,-9223372036854775808,-9223372036854775808\n-9223372036854775808,-9223372036854775808,-9223372036854775808\n-9223372036854775808,-9223372036854775808,-9223372036854775808\n-9223372036854775808,-9223372036854775808,-9223372036854775808\n-9223372036854775808,-9223372036854775808,-9223372036854775808\n-9223372036854775808,-9223372036854775808,-9223372036854775808\n-9223372036854775808,-9223372036854775808,-9223372036854775808\n-9223372036854775808,-9223372036854775808,-9223372036854775808\n2,2,2\n2,2,2\n2,2,2\n2,2,2\n2,2,2\n2,2,2\n2,2,2\n2,2,2\n100,100,100\n100,100,100\n100,100,100\n100,100,100\n100,100,100\n100,100,100\n100,100,100\n100,100,100\n100,100,100\n100,100,100\n100,100,100\n100,100,100\n100,100,100\n100,100,100\n100,100,100\n100,100,100\n",
    },
    Row {
        policy: "[[table]]\nname = 'r'\nowner = 'U'\ncolumns = [{ name = 'e', type = 'INT' }, { name = 'by_', type = 'TEXT' }, { name = 'value', type = 'INT' }, { name = 'j', type = 'INT' }]\n[[table]]\nname = 's'\nowner = 'U'\ncolumns = [{ name = 'd', type = 'INT' }, { name = 'f', type = 'INT' }, { name = 'h', type = 'INT' }]\n",
        prices: "[rows]\nr = 1\ns = 1\n[distinct]\ne = 1\nby_ = 1\nvalue = 1\nj = 1\nd = 1\nf = 1\nh = 1\n",
        query: "sElECT e,by_ fROm s,r whErE h!=e and e>=-7;",
        tables: &[
            (
                "r.csv",
                "e,by_,value,j\r1,stroke,-7,0\r1,a\0,-7,0\r1,y,-7,0\r1,stroke,100,0\r1,stroke,100,0\r1,stroke,2,0\r",
            ),
            ("s.csv", "d,f,h\n000,02,-01\n"),
        ],
        answer: "answer\ne,by_\n1,a\0\n1,stroke\n1,stroke\n1,stroke\n1,stroke\n1,y\n",
    },
    Row {
        policy: "[[table]]\nname = 'any'\nowner = 'U'\ncolumns = [{ name = 'A', type = 'TEXT' }, { name = 'value', type = 'TEXT' }]\n[[table]]\nname = 'QQQQQQQQQQQQQQQQQQQQQQQQQQQQQQQQ'\nowner = 'U'\ncolumns = [{ name = 'c', type = 'INT' }, { name = 'g', type = 'TEXT' }]\n",
        prices: "[rows]\nany = 1\nQQQQQQQQQQQQQQQQQQQQQQQQQQQQQQQQ = 1\n[distinct]\nA = 1\nvalue = 1\nc = 1\ng = 1\n",
        query: "SELECT mIn(A) from any,QQQQQQQQQQQQQQQQQQQQQQQQQQQQQQQQ where A!=g group BY value;",
        tables: &[
            ("any.csv", "A,value\rx,\r,y\rx,flu\r\"y\",a\0\r\ry,\r,a\0\r"),
            (
                "QQQQQQQQQQQQQQQQQQQQQQQQQQQQQQQQ.csv",
                "c,g\n-0,\u{feff}\n0,\u{feff}\n000,\u{feff}\n\n0,\"\u{feff}\"\n\"0\",\"\u{feff}\"\n",
            ),
        ],
        answer: "answer\nA\n\"\"\n\"\"\nx\nx\n",
    },
    Row {
        policy: "[[table]]\nname = 's'\nowner = 'U'\ncolumns = [{ name = 'i', type = 'INT' }]\n",
        prices: "[rows]\ns = 1\n[distinct]\ni = 1\n",
        query: "SELEct i,i,s.i,i FroM s where i>=2;",
        tables: &[("s.csv", "\"i\"\n2\n-0\n-2\n1\n2\n1")],
        answer: "answer\ni,i,i,i\n2,2,2,2\n2,2,2,2\n",
    },
    Row {
        policy: "[[table]]\nname = 'Hosp'\nowner = 'U'\ncolumns = [{ name = 'h', type = 'INT' }, { name = 'LLLLLLLLLLLLLLLLLLLLLLLLLLLLLLLL', type = 'INT' }, { name = 'sums', type = 'INT' }]\n[[table]]\nname = 't'\nowner = 'U'\ncolumns = [{ name = 'x1', type = 'TEXT' }]\n",
        prices: "[rows]\nHosp = 1\nt = 1\n[distinct]\nh = 1\nLLLLLLLLLLLLLLLLLLLLLLLLLLLLLLLL = 1\nsums = 1\nx1 = 1\n",
        query: "select\r\n h,Hosp\r\n .\nh,h,h\tFROM\tHosp\njoIN  t\r\n ON h<> -9223372036854775808  ;",
        tables: &[
            (
                "Hosp.csv",
                "h,LLLLLLLLLLLLLLLLLLLLLLLLLLLLLLLL,sums\r-2,-1,2\r-2,0,2\r3,0,2\r-1,-1,2\r3,-1,2\r-1,1,2\r",
            ),
            (
                "t.csv",
                "x1\n\"\"\n\"\"\n\"\"\n\"\"\n\"\"\n\"\"\n\"\"\n\"\"\n",
            ),
        ],
        answer: "answer\nh,h,h,h\n-2,-2,-2,-2\n-2,-2,-2,-2\n-2,-2,-2,-2\n-2,-2,-2,-2\n-2,-2,-2,-2\n-2,-2,-2,-2\n-2,-2,-2,-2\n-2,-2,-2,-2\n-2,-2,-2,-2\n-2,-2,-2,-2\n-2,-2,-2,-2\n-2,-2,-2,-2\n-2,-2,-2,-2\n-2,-2,-2,-2\n-2,-2,-2,-2\n-2,-2,-2,-2\n-1,-1,-1,-1\n-1,-1,-1,-1\n-1,-1,-1,-1\n-1,-1,-1,-1\n-1,-1,-1,-1\n-1,-1,-1,-1\n-1,-1,-1,-1\n-1,-1,-1,-1\n-1,-1,-1,-1\n-1,-1,-1,-1\n-1,-1,-1,-1\n-1,-1,-1,-1\n-1,-1,-1,-1\n-1,-1,-1,-1\n-1,-1,-1,-1\n-1,-1,-1,-1\n3,3,3,3\n3,3,3,3\n3,3,3,3\n3,3,3,3\n3,3,3,3\n3,3,3,3\n3,3,3,3\n3,3,3,3\n3,3,3,3\n3,3,3,3\n3,3,3,3\n3,3,3,3\n3,3,3,3\n3,3,3,3\n3,3,3,3\n3,3,3,3\n",
    },
    Row {
        policy: "[[table]]\nname = 's'\nowner = 'U'\ncolumns = [{ name = 'g', type = 'INT' }, { name = 'd', type = 'INT' }]\n",
        prices: "[rows]\ns = 1\n[distinct]\ng = 1\nd = 1\n",
        query: "select s.g,g,d from s wHere s.g>1",
        tables: &[(
            "s.csv",
            "g,d\n3,\"-1\"\n02,-1\n3,3\n2,-01\n2,-1\n02,3\n02,03\n03,3\n",
        )],
        answer: "answer\ng,g,d\n2,2,-1\n2,2,-1\n2,2,-1\n2,2,3\n2,2,3\n3,3,-1\n3,3,3\n3,3,3\n",
    },
    Row {
        policy: "[[table]]\nname = 'any'\nowner = 'U'\ncolumns = [{ name = 'b', type = 'INT' }, { name = 'g', type = 'INT' }, { name = 'value', type = 'INT' }]\n",
        prices: "[rows]\nany = 1\n[distinct]\nb = 1\ng = 1\nvalue = 1\n",
        query: "SELECT\nb,\r\n b,\r\n b FROM\nany  WhERE value<=10",
        tables: &[("any.csv", "b,g,value\n-2,-2,-2\n2,-2,-2\n")],
        answer: "answer\nb,b,b\n-2,-2,-2\n2,2,2\n",
    },
    Row {
        policy: "[[table]]\nname = 't'\nowner = 'U'\ncolumns = [{ name = 'LLLLLLLLLLLLLLLLLLLLLLLLLLLLLLLL', type = 'TEXT' }, { name = 'i', type = 'TEXT' }]\n[[table]]\nname = '_u'\nowner = 'U'\ncolumns = [{ name = 'd', type = 'INT' }, { name = 'k', type = 'INT' }, { name = 'e', type = 'INT' }]\n",
        prices: "[rows]\nt = 1\n_u = 1\n[distinct]\nLLLLLLLLLLLLLLLLLLLLLLLLLLLLLLLL = 1\ni = 1\nd = 1\nk = 1\ne = 1\n",
        query: "SELECT e,_u.e,e FROM _u,t where e<>1",
        tables: &[
            (
                "t.csv",
                "LLLLLLLLLLLLLLLLLLLLLLLLLLLLLLLL,i\n\\,y\n\\,y\n\"\r\n\",y\n\"\r\n\",y\n\\,\\\né,\n",
            ),
            (
                "_u.csv",
                "d,k,e\r1,\"2\",\"1\"\r1,\"2\",0\r\"1\",02,\"1\"\r1,2,0\r",
            ),
        ],
        answer: "answer\ne,e,e\n0,0,0\n0,0,0\n0,0,0\n0,0,0\n0,0,0\n0,0,0\n0,0,0\n0,0,0\n0,0,0\n0,0,0\n0,0,0\n0,0,0\n",
    },
    Row {
        policy: "[[table]]\nname = 'Hosp'\nowner = 'U'\ncolumns = [{ name = 'i', type = 'TEXT' }, { name = 'sums', type = 'INT' }, { name = 'e', type = 'INT' }, { name = 'k', type = 'INT' }]\n",
        prices: "[rows]\nHosp = 1\n[distinct]\ni = 1\nsums = 1\ne = 1\nk = 1\n",
        query: "SELECT\r\n sums  ,Hosp. e  ,Hosp. k\nfrom\tHosp",
        tables: &[(
            "Hosp.csv",
            "i,sums,\"e\",k\r\nxxxxxxxxxxxxxxxxxxxxxxxxxxxxxxxxxxxxxxxxxxxxxxxxxxxxxxxxxxxxxxxxxxxxxxxxxxxxxxxxxxxxxxxxxxxxxxxxxxxxxxxxxxxxxxxxxxxxxxxx,1,\"1\",-1\r\nxxxxxxxxxxxxxxxxxxxxxxxxxxxxxxxxxxxxxxxxxxxxxxxxxxxxxxxxxxxxxxxxxxxxxxxxxxxxxxxxxxxxxxxxxxxxxxxxxxxxxxxxxxxxxxxxxxxxxxxx,10,-1,-1\r\nxxxxxxxxxxxxxxxxxxxxxxxxxxxxxxxxxxxxxxxxxxxxxxxxxxxxxxxxxxxxxxxxxxxxxxxxxxxxxxxxxxxxxxxxxxxxxxxxxxxxxxxxxxxxxxxxxxxxxxxx,10,1,-1\r\nxxxxxxxxxxxxxxxxxxxxxxxxxxxxxxxxxxxxxxxxxxxxxxxxxxxxxxxxxxxxxxxxxxxxxxxxxxxxxxxxxxxxxxxxxxxxxxxxxxxxxxxxxxxxxxxxxxxxxxxx,10,1,-1\r\nxxxxxxxxxxxxxxxxxxxxxxxxxxxxxxxxxxxxxxxxxxxxxxxxxxxxxxxxxxxxxxxxxxxxxxxxxxxxxxxxxxxxxxxxxxxxxxxxxxxxxxxxxxxxxxxxxxxxxxxx,9223372036854775807,1,-1\r\nxxxxxxxxxxxxxxxxxxxxxxxxxxxxxxxxxxxxxxxxxxxxxxxxxxxxxxxxxxxxxxxxxxxxxxxxxxxxxxxxxxxxxxxxxxxxxxxxxxxxxxxxxxxxxxxxxxxxxxxx,9223372036854775807,-1,-1\r\nxxxxxxxxxxxxxxxxxxxxxxxxxxxxxxxxxxxxxxxxxxxxxxxxxxxxxxxxxxxxxxxxxxxxxxxxxxxxxxxxxxxxxxxxxxxxxxxxxxxxxxxxxxxxxxxxxxxxxxxx,10,1,\"-1\"\r\nxxxxxxxxxxxxxxxxxxxxxxxxxxxxxxxxxxxxxxxxxxxxxxxxxxxxxxxxxxxxxxxxxxxxxxxxxxxxxxxxxxxxxxxxxxxxxxxxxxxxxxxxxxxxxxxxxxxxxxxx,\"10\",1,-1\r\n",
        )],
        answer: "answer\nsums,e,k\n1,1,-1\n10,-1,-1\n10,1,-1\n10,1,-1\n10,1,-1\n10,1,-1\n9223372036854775807,-1,-1\n9223372036854775807,1,-1\n",
    },
    Row {
        policy: "[[table]]\nname = '_u'\nowner = 'U'\ncolumns = [{ name = 'LLLLLLLLLLLLLLLLLLLLLLLLLLLLLLLL', type = 'TEXT' }, { name = 'any', type = 'INT' }, { name = 'h', type = 'INT' }]\n[[table]]\nname = 's'\nowner = 'U'\ncolumns = [{ name = 'value', type = 'INT' }, { name = 'f', type = 'TEXT' }, { name = 'a', type = 'INT' }]\n",
        prices: "[rows]\n_u = 1\ns = 1\n[distinct]\nLLLLLLLLLLLLLLLLLLLLLLLLLLLLLLLL = 1\nany = 1\nh = 1\nvalue = 1\nf = 1\na = 1\n",
        query: "select value,value,s.value FroM _u,s WHERE value<=-1 and value<>100;",
        tables: &[
            (
                "_u.csv",
                "\"LLLLLLLLLLLLLLLLLLLLLLLLLLLLLLLL\",\"any\",h\r\n\"Z\",0,2\r\né,0,\"-1\"\r\nZ,0,\"1\"\r\n",
            ),
            (
                "s.csv",
                "value,f,a\r\"-9223372036854775808\",y,\"-2\"\r\"0\",y,3\r02,y,2",
            ),
        ],
        answer: "answer\nvalue,value,value\n-9223372036854775808,-9223372036854775808,-9223372036854775808\n-9223372036854775808,-9223372036854775808,-9223372036854775808\n-9223372036854775808,-9223372036854775808,-9223372036854775808\n",
    },
    Row {
        policy: "[[table]]\nname = 'r'\nowner = 'U'\ncolumns = [{ name = 'e', type = 'TEXT' }, { name = 'LLLLLLLLLLLLLLLLLLLLLLLLLLLLLLLL', type = 'INT' }, { name = 'index', type = 'INT' }, { name = 'f', type = 'INT' }]\n",
        prices: "[rows]\nr = 1\n[distinct]\ne = 1\nLLLLLLLLLLLLLLLLLLLLLLLLLLLLLLLL = 1\nindex = 1\nf = 1\n",
        query: "SElECT LLLLLLLLLLLLLLLLLLLLLLLLLLLLLLLL,index,e,r.f from r WHERE LLLLLLLLLLLLLLLLLLLLLLLLLLLLLLLL!=index",
        tables: &[(
            "r.csv",
            "e,LLLLLLLLLLLLLLLLLLLLLLLLLLLLLLLL,index,f\nflu,02,-01,10\nx,2,-2,\"010\"\n\"a\0\",2,0,10\n",
        )],
        answer: "answer\nLLLLLLLLLLLLLLLLLLLLLLLLLLLLLLLL,index,e,f\n2,-2,x,10\n2,-1,flu,10\n2,0,a\0,10\n",
    },
    Row {
        policy: "[[table]]\nname = 's'\nowner = 'U'\ncolumns = [{ name = 'value', type = 'INT' }, { name = '_1', type = 'INT' }]\n[[table]]\nname = 'any'\nowner = 'U'\ncolumns = [{ name = 'f', type = 'INT' }]\n",
        prices: "[rows]\ns = 1\nany = 1\n[distinct]\nvalue = 1\n_1 = 1\nf = 1\n",
        query: "select _1 FROM any,s",
        tables: &[
            ("s.csv", "value,_1\n-2,\"2\"\n\"-2\",\"2\"\n\"-1\",2\n"),
            ("any.csv", "f\n1\n1\n"),
        ],
        answer: "answer\n_1\n2\n2\n2\n2\n2\n2\n",
    },
    Row {
        policy: "[[table]]\nname = 'Hosp'\nowner = 'U'\ncolumns = [{ name = 'i', type = 'INT' }, { name = 'j', type = 'INT' }, { name = 'value', type = 'TEXT' }, { name = 'c', type = 'TEXT' }]\n[[table]]\nname = 's'\nowner = 'U'\ncolumns = [{ name = 'any', type = 'INT' }]\n",
        prices: "[rows]\nHosp = 1\ns = 1\n[distinct]\ni = 1\nj = 1\nvalue = 1\nc = 1\nany = 1\n",
        query: "select\nvalue\r\n ,c fRoM  Hosp,s\ngroUp\r\n BY\nc\t,Hosp .  value HAVING  suM (j )<=\n5\tand\nCOUNT  (*\n)  >=\r\n 1\n",
        tables: &[
            (
                "Hosp.csv",
                "i,j,value,c\r2,4611686018427387904,x,\"x\"\r\r2,\"0\",x,y\r2,4611686018427387904,\"flu\",\r2,\"0\",flu,x\r02,4611686018427387904,x,\"\"\r\r2,04611686018427387904,x,\r",
            ),
            ("s.csv", "any\n1\n"),
        ],
        answer: "answer\nvalue,c\nflu,x\nx,y\n",
    },
    Row {
        policy: "[[table]]\nname = 's'\nowner = 'U'\ncolumns = [{ name = 'A', type = 'INT' }, { name = 'i', type = 'INT' }, { name = 'c', type = 'INT' }, { name = 'b', type = 'INT' }]\n[[table]]\nname = 'QQQQQQQQQQQQQQQQQQQQQQQQQQQQQQQQ'\nowner = 'U'\ncolumns = [{ name = 'g', type = 'TEXT' }, { name = 'd', type = 'TEXT' }]\n[[table]]\nname = 'r'\nowner = 'U'\ncolumns = [{ name = 'x1', type = 'TEXT' }, { name = 'sums', type = 'INT' }, { name = 'any', type = 'INT' }]\n",
        prices: "[rows]\ns = 1\nQQQQQQQQQQQQQQQQQQQQQQQQQQQQQQQQ = 1\nr = 1\n[distinct]\nA = 1\ni = 1\nc = 1\nb = 1\ng = 1\nd = 1\nx1 = 1\nsums = 1\nany = 1\n",
        query: "SELECT Sum(i),sum(i) frOm s,QQQQQQQQQQQQQQQQQQQQQQQQQQQQQQQQ,r gRouP BY x1;",
        tables: &[
            (
                "s.csv",
                "A,i,c,\"b\"\n1,\"1\",-09223372036854775808,-2\n\"1\",010,-9223372036854775808,-02\n2,010,-9223372036854775808,\"-2\"\n2,-7,\"-9223372036854775808\",-2\n2,10,-9223372036854775808,-2",
            ),
            (
                "QQQQQQQQQQQQQQQQQQQQQQQQQQQQQQQQ.csv",
                "g,d\n\"stroke\",\"zz\"\nx,zz\nx,zz\n",
            ),
            ("r.csv", "x1,sums,any\nx,3,2\ny,-1,2\n"),
        ],
        answer: "answer\ni,i\n72,72\n72,72\n",
    },
    Row {
        policy: "[[table]]\nname = 'r'\nowner = 'U'\ncolumns = [{ name = 'x1', type = 'INT' }, { name = 'c', type = 'INT' }, { name = 'value', type = 'INT' }, { name = 'h', type = 'INT' }]\n[[table]]\nname = 'Hosp'\nowner = 'U'\ncolumns = [{ name = 'by_', type = 'INT' }, { name = 'A', type = 'TEXT' }]\n",
        prices: "[rows]\nr = 1\nHosp = 1\n[distinct]\nx1 = 1\nc = 1\nvalue = 1\nh = 1\nby_ = 1\nA = 1\n",
        query: "SELECT c,count(*),COUNT(*),count(*) frOM Hosp JOIN r ON c<=4611686018427387904 grOUP BY r.c HAVING cOuNT(*)!=1",
        tables: &[
            (
                "r.csv",
                "\"x1\",c,value,h\n1,0,1,-2\n1,3,1,\"100\"\n-1,0,1,-2\n1,\"1\",1,100\n1,-0,\"1\",100\n\"000\",0,1,100\n-1,1,\"1\",100\n\n0,3,\"01\",-02",
            ),
            ("Hosp.csv", "by_,A\n\"9223372036854775807\",\"stroke\"\n"),
        ],
        answer: "answer\nc,count,count,count\n0,4,4,4\n1,2,2,2\n3,2,2,2\n",
    },
    Row {
        policy: "[[table]]\nname = 't'\nowner = 'U'\ncolumns = [{ name = 'j', type = 'TEXT' }, { name = 'value', type = 'TEXT' }, { name = 'e', type = 'TEXT' }]\n[[table]]\nname = 'QQQQQQQQQQQQQQQQQQQQQQQQQQQQQQQQ'\nowner = 'U'\ncolumns = [{ name = 'x1', type = 'INT' }, { name = 'h', type = 'INT' }]\n",
        prices: "[rows]\nt = 1\nQQQQQQQQQQQQQQQQQQQQQQQQQQQQQQQQ = 1\n[distinct]\nj = 1\nvalue = 1\ne = 1\nx1 = 1\nh = 1\n",
        query: "\nselect\nx1\r\n ,x1  FRoM  t , QQQQQQQQQQQQQQQQQQQQQQQQQQQQQQQQ\twhere  t.value!= '-1'",
        tables: &[
            ("t.csv", "\u{feff}\"j\",value,e\n\\,a\0,zz\n"),
            (
                "QQQQQQQQQQQQQQQQQQQQQQQQQQQQQQQQ.csv",
                "x1,h\r\n1,3\r\n1,3\r\n1,-7\r\n-7,-7\r\n",
            ),
        ],
        answer: "answer\nx1,x1\n-7,-7\n1,1\n1,1\n1,1\n",
    },
    Row {
        policy: "[[table]]\nname = 'Hosp'\nowner = 'U'\ncolumns = [{ name = 'value', type = 'INT' }, { name = 'LLLLLLLLLLLLLLLLLLLLLLLLLLLLLLLL', type = 'TEXT' }, { name = 'x1', type = 'INT' }, { name = 'any', type = 'INT' }]\n[[table]]\nname = '_u'\nowner = 'U'\ncolumns = [{ name = 'a', type = 'INT' }, { name = 'e', type = 'TEXT' }]\n",
        prices: "[rows]\nHosp = 1\n_u = 1\n[distinct]\nvalue = 1\nLLLLLLLLLLLLLLLLLLLLLLLLLLLLLLLL = 1\nx1 = 1\nany = 1\na = 1\ne = 1\n",
        query: "\tselECT  x1,Hosp.\tx1,Hosp.x1,x1\r\n FROM Hosp,_u WHERE x1  <>\n4611686018427387904",
        tables: &[
            (
                "Hosp.csv",
                "value,\"LLLLLLLLLLLLLLLLLLLLLLLLLLLLLLLL\",x1,any\r\n\"02\",,\"-02\",2\r\n-2,,-1,02\r\n2,stroke,-1,2",
            ),
            (
                "_u.csv",
                "\na,\"e\"\n100,y\n\n100,a\0\n\"-9223372036854775808\",a\n\"0100\",a\n",
            ),
        ],
        answer: "answer\nx1,x1,x1,x1\n-2,-2,-2,-2\n-2,-2,-2,-2\n-2,-2,-2,-2\n-2,-2,-2,-2\n-1,-1,-1,-1\n-1,-1,-1,-1\n-1,-1,-1,-1\n-1,-1,-1,-1\n-1,-1,-1,-1\n-1,-1,-1,-1\n-1,-1,-1,-1\n-1,-1,-1,-1\n",
    },
    Row {
        policy: "[[table]]\nname = '_u'\nowner = 'U'\ncolumns = [{ name = 'h', type = 'TEXT' }, { name = 'd', type = 'TEXT' }, { name = 'j', type = 'INT' }]\n[[table]]\nname = 'QQQQQQQQQQQQQQQQQQQQQQQQQQQQQQQQ'\nowner = 'U'\ncolumns = [{ name = 'b', type = 'INT' }, { name = 'i', type = 'INT' }, { name = 'sums', type = 'INT' }, { name = 'any', type = 'TEXT' }]\n",
        prices: "[rows]\n_u = 1\nQQQQQQQQQQQQQQQQQQQQQQQQQQQQQQQQ = 1\n[distinct]\nh = 1\nd = 1\nj = 1\nb = 1\ni = 1\nsums = 1\nany = 1\n",
        query: "select any FROM _u,QQQQQQQQQQQQQQQQQQQQQQQQQQQQQQQQ WHERE i!=-7 and d>any",
        tables: &[
            (
                "_u.csv",
                "\u{feff}\nh,d,j\n\"stroke\",\"y\",2\nstroke,a,2\nstroke,\"flu\",02\nstroke,flu,2\nstroke,flu,2\nstroke,y,02\nstroke,flu,2\nstroke,y,2\n",
            ),
            (
                "QQQQQQQQQQQQQQQQQQQQQQQQQQQQQQQQ.csv",
                "\u{feff}\n\"b\",i,sums,\"any\"\n02,0100,02,\"\"\n2,\"100\",2,x\n\"01\",9223372036854775807,2,x\n-2,10,2,x\n",
            ),
        ],
        answer: "answer\nany\n\"\"\n\"\"\n\"\"\n\"\"\n\"\"\n\"\"\n\"\"\n\"\"\nx\nx\nx\nx\nx\nx\nx\nx\nx\n",
    },
    Row {
        policy: "[[table]]\nname = 'order'\nowner = 'U'\ncolumns = [{ name = 'h', type = 'INT' }, { name = 'sums', type = 'TEXT' }]\n",
        prices: "[rows]\norder = 1\n[distinct]\nh = 1\nsums = 1\n",
        query: "SELECT maX(order.sums),MAX(sums) from order where order.sums<>'x' group by h;",
        tables: &[(
            "order.csv",
            "h,sums\n9223372036854775807,x\n4611686018427387904,x\n9223372036854775807,'x'\n0,x\n0,'x'\n0,x\n0,x\n9223372036854775807,\"\r\n\"\n",
        )],
        answer: "answer\nsums,sums\n'x','x'\n'x','x'\n",
    },
    Row {
        policy: "[[table]]\nname = 'r'\nowner = 'U'\ncolumns = [{ name = 'g', type = 'INT' }, { name = 'index', type = 'INT' }, { name = 'i', type = 'TEXT' }]\n",
        prices: "[rows]\nr = 1\n[distinct]\ng = 1\nindex = 1\ni = 1\n",
        query: "\nselect\tr .g,r\r\n .i,r.index  froM\r\n r WHERE i  <>'\"'  and r.index< 3 ;",
        tables: &[(
            "r.csv",
            "g,\"index\",\"i\"\r\r01,\"010\",x\r-1,\"2\",x\r-02,\"10\",y\r1,10,x\r-02,10,\"x\"\r-01,02,\"flu\"\r",
        )],
        answer: "answer\ng,i,index\n-1,flu,2\n-1,x,2\n",
    },
    Row {
        policy: "[[table]]\nname = 't'\nowner = 'U'\ncolumns = [{ name = 'value', type = 'INT' }]\n",
        prices: "[rows]\nt = 1\n[distinct]\nvalue = 1\n",
        query: "SelEcT value,COUNT(*) FROM t GROUP By value having count(*)=3 AND COUNT(*)<=5",
        tables: &[("t.csv", "value\n0\n1\n1\n0\n-2\n-2\n0\n-2\n")],
        answer: "answer\nvalue,count\n-2,3\n0,3\n",
    },
    Row {
        policy: "[[table]]\nname = 'order'\nowner = 'U'\ncolumns = [{ name = 'by_', type = 'INT' }, { name = 'g', type = 'INT' }, { name = 'c', type = 'INT' }, { name = 'x1', type = 'TEXT' }]\n",
        prices: "[rows]\norder = 1\n[distinct]\nby_ = 1\ng = 1\nc = 1\nx1 = 1\n",
        query: "seLeCt COUNT(*),by_ from order GROUP By order.g,by_",
        tables: &[(
            "order.csv",
            "by_,g,\"c\",\"x1\"\n\"10\",0,3,-1\n100,\"0\",3,count\n100,\"-7\",2,\"é\"\n\n10,4611686018427387904,3,\"count\"",
        )],
        answer: "answer\ncount,by_\n1,10\n1,10\n1,100\n1,100\n",
    },
    Row {
        policy: "[[table]]\nname = 'Hosp'\nowner = 'U'\ncolumns = [{ name = 'value', type = 'INT' }, { name = 'sums', type = 'INT' }]\n[[table]]\nname = 'QQQQQQQQQQQQQQQQQQQQQQQQQQQQQQQQ'\nowner = 'U'\ncolumns = [{ name = 'any', type = 'TEXT' }]\n",
        prices: "[rows]\nHosp = 1\nQQQQQQQQQQQQQQQQQQQQQQQQQQQQQQQQ = 1\n[distinct]\nvalue = 1\nsums = 1\nany = 1\n",
        query: "select value,value,value froM Hosp,QQQQQQQQQQQQQQQQQQQQQQQQQQQQQQQQ WHERE QQQQQQQQQQQQQQQQQQQQQQQQQQQQQQQQ.any='a\"b';",
        tables: &[
            ("Hosp.csv", "value,sums\n-7,3\n1,-1\n"),
            (
                "QQQQQQQQQQQQQQQQQQQQQQQQQQQQQQQQ.csv",
                "any\r\n\"a\"\"b\"\r\nzz\r\na\r\na\r\n",
            ),
        ],
        answer: "answer\nvalue,value,value\n-7,-7,-7\n1,1,1\n",
    },
    Row {
        policy: "[[table]]\nname = '_u'\nowner = 'U'\ncolumns = [{ name = 'LLLLLLLLLLLLLLLLLLLLLLLLLLLLLLLL', type = 'TEXT' }, { name = 'sums', type = 'TEXT' }]\n[[table]]\nname = 'any'\nowner = 'U'\ncolumns = [{ name = 'k', type = 'TEXT' }, { name = 'c', type = 'TEXT' }, { name = '_1', type = 'INT' }]\n[[table]]\nname = 't'\nowner = 'U'\ncolumns = [{ name = 'e', type = 'INT' }, { name = 'by_', type = 'INT' }, { name = 'value', type = 'INT' }]\n",
        prices: "[rows]\n_u = 1\nany = 1\nt = 1\n[distinct]\nLLLLLLLLLLLLLLLLLLLLLLLLLLLLLLLL = 1\nsums = 1\nk = 1\nc = 1\n_1 = 1\ne = 1\nby_ = 1\nvalue = 1\n",
        query: "SELEcT k,c,e,c FROM any,t,_u WHERE c<>'count' and k<'é';",
        tables: &[
            (
                "_u.csv",
                "\n\"LLLLLLLLLLLLLLLLLLLLLLLLLLLLLLLL\",sums\na,\",\"\na,\",\"\na,\",\"\na,\",\"\na,\",\"\n",
            ),
            ("any.csv", "k,c,_1\n\"a\"\"b\",',-7\n"),
            ("t.csv", "e,by_,value\n3,-7,1\n-9223372036854775808,1,0\n"),
        ],
        answer: "answer\nk,c,e,c\n\"a\"\"b\",',-9223372036854775808,'\n\"a\"\"b\",',-9223372036854775808,'\n\"a\"\"b\",',-9223372036854775808,'\n\"a\"\"b\",',-9223372036854775808,'\n\"a\"\"b\",',-9223372036854775808,'\n\"a\"\"b\",',3,'\n\"a\"\"b\",',3,'\n\"a\"\"b\",',3,'\n\"a\"\"b\",',3,'\n\"a\"\"b\",',3,'\n",
    },
    Row {
        policy: "[[table]]\nname = 't'\nowner = 'U'\ncolumns = [{ name = 'j', type = 'TEXT' }, { name = 'k', type = 'INT' }, { name = 'g', type = 'INT' }, { name = 'a', type = 'INT' }]\n[[table]]\nname = 'Hosp'\nowner = 'U'\ncolumns = [{ name = 'by_', type = 'INT' }]\n",
        prices: "[rows]\nt = 1\nHosp = 1\n[distinct]\nj = 1\nk = 1\ng = 1\na = 1\nby_ = 1\n",
        query: "select t.k,k,t.k,k from t,Hosp group BY k;",
        tables: &[
            (
                "t.csv",
                "\u{feff}j,k,g,a\ry,-1,2,9223372036854775807\ra\0,-2,2,2\r",
            ),
            ("Hosp.csv", "by_\r-2\r-2\r-1\r-1\r-2\r-1\r"),
        ],
        answer: "answer\nk,k,k,k\n-2,-2,-2,-2\n-1,-1,-1,-1\n",
    },
    Row {
        policy: "[[table]]\nname = '_u'\nowner = 'U'\ncolumns = [{ name = 'LLLLLLLLLLLLLLLLLLLLLLLLLLLLLLLL', type = 'INT' }, { name = 'a', type = 'TEXT' }, { name = 'x1', type = 'TEXT' }, { name = 'i', type = 'INT' }]\n",
        prices: "[rows]\n_u = 1\n[distinct]\nLLLLLLLLLLLLLLLLLLLLLLLLLLLLLLLL = 1\na = 1\nx1 = 1\ni = 1\n",
        query: "SELECT  mIn\r\n (i),x1,a,x1\nFROM\n_u wHeRe\n_u\n.a>'\r\n'  group By _u. a,x1",
        tables: &[(
            "_u.csv",
            "LLLLLLLLLLLLLLLLLLLLLLLLLLLLLLLL,a,\"x1\",i\n\n3,x,\"a\rb\",2\n-2,x,\"a\rb\",1\n-2,a,\"a\rb\",0\n3,x,\"a\rb\",04611686018427387904\n3,\"a\",\"a\rb\",4611686018427387904\n",
        )],
        answer: "answer\ni,x1,a,x1\n0,\"a\rb\",a,\"a\rb\"\n1,\"a\rb\",x,\"a\rb\"\n",
    },
    Row {
        policy: "[[table]]\nname = '_u'\nowner = 'U'\ncolumns = [{ name = 'index', type = 'INT' }, { name = 'i', type = 'INT' }, { name = 'e', type = 'INT' }, { name = 'value', type = 'TEXT' }]\n[[table]]\nname = 'order'\nowner = 'U'\ncolumns = [{ name = 'h', type = 'TEXT' }, { name = 'a', type = 'TEXT' }]\n",
        prices: "[rows]\n_u = 1\norder = 1\n[distinct]\nindex = 1\ni = 1\ne = 1\nvalue = 1\nh = 1\na = 1\n",
        query: "SELeCT\tmAx(\r\n order.h)  from  _u,order\nwhere\te<>3\ngroup\nBY\ne  ;",
        tables: &[
            (
                "_u.csv",
                "index,i,e,value\n-2,2,10,'\n2,2,9223372036854775807,#\n\n-7,1,-1,#\n",
            ),
            ("order.csv", "h,a\ny,\"\"\"\"\nx,\"x\"\ny,x"),
        ],
        answer: "answer\nh\ny\ny\ny\n",
    },
    Row {
        policy: "[[table]]\nname = 'any'\nowner = 'U'\ncolumns = [{ name = 'a', type = 'INT' }]\n[[table]]\nname = 'r'\nowner = 'U'\ncolumns = [{ name = 'any', type = 'INT' }, { name = 'b', type = 'INT' }, { name = 'value', type = 'INT' }, { name = 'g', type = 'TEXT' }]\n",
        prices: "[rows]\nany = 1\nr = 1\n[distinct]\na = 1\nany = 1\nb = 1\nvalue = 1\ng = 1\n",
        query: "SeLecT any,any,r.any from r,any where any>=any.a",
        tables: &[
            ("any.csv", "a\n-7\n010\n010\n-7\n\n\"-7\"\n000"),
            (
                "r.csv",
                "any,b,value,g\n-1,-2,100,x\n3,-2,100,y\n-1,-2,100,y\n-1,-2,100,y\n-1,-2,100,y\n",
            ),
        ],
        answer: "answer\nany,any,any\n-1,-1,-1\n-1,-1,-1\n-1,-1,-1\n-1,-1,-1\n-1,-1,-1\n-1,-1,-1\n-1,-1,-1\n-1,-1,-1\n-1,-1,-1\n-1,-1,-1\n-1,-1,-1\n-1,-1,-1\n3,3,3\n3,3,3\n3,3,3\n3,3,3\n",
    },
    Row {
        policy: "[[table]]\nname = 'Hosp'\nowner = 'U'\ncolumns = [{ name = 'by_', type = 'INT' }, { name = 'sums', type = 'INT' }]\n",
        prices: "[rows]\nHosp = 1\n[distinct]\nby_ = 1\nsums = 1\n",
        query: "seleCt  by_, Hosp\t.by_, CoUNt (*), sums\tFROM\nHosp\twhere\tHosp.  by_>=\nsums  GROUP  BY by_,\tsums",
        tables: &[("Hosp.csv", "by_,sums\n2,-2\n01,2\n\n1,01")],
        answer: "answer\nby_,by_,count,sums\n1,1,1,1\n2,2,1,-2\n",
    },
    Row {
        policy: "[[table]]\nname = 'r'\nowner = 'U'\ncolumns = [{ name = 'ax1', type = 'TEXT' }, { name = 'a', type = 'INT' }, { name = 'ax0', type = 'TEXT' }]\n[[table]]\nname = 's'\nowner = 'U'\ncolumns = [{ name = 'c', type = 'INT' }, { name = 'cx0', type = 'INT' }]\n",
        prices: "[rows]\nr = 1\ns = 1\n[distinct]\nax1 = 1\na = 1\nax0 = 1\nc = 1\ncx0 = 1\n",
        query: "  sELect\nMIN\t(ax0), s.cx0, counT\n(*)\tFROm\tr,s\nwhere  c\t=a group by\tcx0  ",
        tables: &[
            (
                "r.csv",
                "\u{feff}ax1,a,ax0\rstroke,1,\u{feff}\rstroke,10,\u{feff}\ra,10,\u{feff}\rstroke,1,\u{feff}\r",
            ),
            (
                "s.csv",
                "c,cx0\n3,100\n3,100\n1,100\n1,100\n-7,-7\n1,-7\n10,100\n-7,-7\n",
            ),
        ],
        answer: "answer\nax0,cx0,count\n\u{feff},-7,2\n\u{feff},100,6\n",
    },
    Row {
        policy: "[[table]]\nname = 'Hosp'\nowner = 'U'\ncolumns = [{ name = 'x1', type = 'INT' }, { name = 'j', type = 'TEXT' }, { name = 'a', type = 'INT' }]\n",
        prices: "[rows]\nHosp = 1\n[distinct]\nx1 = 1\nj = 1\na = 1\n",
        query: "SelecT count(*),COUNT(*),count(*) from Hosp group bY j;",
        tables: &[(
            "Hosp.csv",
            "x1,j,a\n4611686018427387904,flu,1\n4611686018427387904,,2\n4611686018427387904,,-1\n4611686018427387904,a\0,-1\n4611686018427387904,flu,1\n4611686018427387904,a\0,1\n",
        )],
        answer: "answer\ncount,count,count\n2,2,2\n2,2,2\n2,2,2\n",
    },
];

// What the file of this name has, which is nothing where a row has no such file.
fn text_of<'a>(row: &Row<'a>, name: &[u8]) -> &'a str {
    for (held, text) in row.tables {
        if held.as_bytes() == name {
            return text;
        }
    }
    ""
}

// A file of two texts, one behind the other.
fn file(alloc: Global, name: &[u8], parts: (&str, &str)) -> Result<(Text, Text), NoMemory>
    ensures { IfOk result (λ file. file.0 ≡ name.now) }
{
    Ok((Text::copied(alloc, name)?, joined(alloc, parts)?))
}

fn table(alloc: Global, row: &Row<'_>, name: &[u8]) -> Result<(Text, Text), NoMemory>
    ensures { IfOk result (λ file. file.0 ≡ name.now) }
{
    file(alloc, name, (text_of(row, name), ""))
}

// The files of a command, with a table of each name that rows have.
fn files(alloc: Global, row: &Row<'_>) -> Result<Seq<(Text, Text)>, NoMemory>
    ensures { IfOk result HasDistinctNames }
{
    let mut files = Seq::new(alloc);
    files.push(file(alloc, b"policy", (POLICY, row.policy))?)?;
    files.push(file(alloc, b"prices", (PRICES, row.prices))?)?;
    files.push(file(alloc, b"query", (row.query, ""))?)?;
    files.push(table(alloc, row, b"any.csv")?)?;
    files.push(table(alloc, row, b"order.csv")?)?;
    files.push(table(alloc, row, b"r.csv")?)?;
    files.push(table(alloc, row, b"s.csv")?)?;
    files.push(table(alloc, row, b"t.csv")?)?;
    files.push(table(alloc, row, b"_u.csv")?)?;
    files.push(table(alloc, row, b"Hosp.csv")?)?;
    files.push(table(alloc, row, b"QQQQQQQQQQQQQQQQQQQQQQQQQQQQQQQQ.csv")?)?;
    Ok(files)
}

// Whether a report has a cost line, a plan line that seals, opens and sends nothing, and this answer.
fn has_answer(report: &[u8], answer: &str) -> bool {
    let Some(front) = between(report, "cost ", answer) else {
        return false;
    };
    let Ok(text) = str::from_utf8(front) else {
        return false;
    };
    let Some((_, plan)) = text.split_once("\nplan ") else {
        return false;
    };
    plan.ends_with("]\n")
        && !plan.contains("\"enc\"")
        && !plan.contains("\"dec\"")
        && !plan.contains("\"send\"")
}

fn check_row(rt: &impl Abort, alloc: Global, row: &Row<'_>) -> Result<(), NoMemory> {
    let mut sink = MemorySink::of(alloc, Seq::new(alloc));
    let status = ran(alloc, &RUN, files(alloc, row)?, &mut sink)?;
    assert_eq!(rt; status, Status::Done, "{}", row.query);
    assert!(rt; has_answer(sink.written(), row.answer), "{}", row.query);
    Ok(())
}

fn check_all(rt: &impl Abort, alloc: Global, rows: &[Row<'_>]) -> Result<(), NoMemory> {
    for row in rows {
        check_row(rt, alloc, row)?;
    }
    Ok(())
}

#[test]
fn plain_plans_give_the_answers(rt: HostRuntime) -> Result<(), Fail> {
    check_all(&rt, rt.alloc(), &ROWS)?;
    Ok(())
}
