// Every text with a known outcome in 01, and RFC 4648 section 10: each is run, and what came out is printed, a line each.
#![tactic(auto)]

mod show; // show.rt: a line of output
mod texts; // texts.rt: 01's table, and the tidied texts
mod vectors; // vectors.rt: RFC 4648 section 10
mod streams; // streams.rt: 01's stream example, by value and with a lent state

fn main(rt: HostRuntime) {
    texts::table(&rt);
    texts::tidied(&rt);
    vectors::written(&rt);
    vectors::read(&rt);
    streams::example(&rt);
}
